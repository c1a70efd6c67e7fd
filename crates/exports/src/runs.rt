// The C call that runs an accepted bundle (document 02, Q-7).
ghost use Rattle.std.specs.Prelude.{◌≡◌, ◌≤◌, length};
ghost use Rattle.ground.specs.Bytes.{at};
ghost use Rattle.ground.specs.Bounded.{set_below};
ghost use Rattle.runner.specs.Run.{ran_in};
ghost use Rattle.exports.specs.Runs.{packed_ran, RunGives};

use crate::pack;
use runner::Ran;
use state::State;
use state_bytes::LENGTH;
use verdicts::Refusal;

fn pack_ran(ran: &Result<Ran, Refusal>) -> u64
    ensures { result ≡ packed_ran (ran_in ran.now) }
{
    match ran {
        Ok(ran) => 256 * ((ran.steps % 72057594037927936) as u64),
        Err(refusal) => 19 + 256 * pack(refusal.numbers()),
    }
}

// The state that is written, in one place for both, so that the stack holds it once.
fn last_state(ran: &Result<Ran, Refusal>) -> State
    ensures { result ≡ (ran_in ran.now).state }
{
    match ran {
        Ok(ran) => ran.state,
        Err(_) => state::empty_state(),
    }
}

// The first 2,537 bytes.
fn lay(out: &mut [u8], g: [u8; LENGTH])
    requires { 2537 ≤ length out.old }
    ensures { out.new ≡ set_below 2537 (at g) out.old }
{
    for i in 0..LENGTH {
        out[i] = g[i];
    }
}

// The answer in the low byte, and above it, with 0 the number of steps that answered 0, 1 or 2, with 19 the verdict as hveitmar_verdict has it.
// The first 2,537 bytes of `out` are the last state then, in the format of hveitmar_trace. 24, and nothing is judged or written, where `out` is shorter.
// From C, `out` must not overlap what is lent for reading, bundle and list: the borrows here say so, and nothing else can.
#[unsafe(no_mangle)]
pub extern "C" fn hveitmar_run(b: &[u8], schedule: &[u8], out: &mut [u8]) -> u64
    ensures { RunGives b.now schedule.now out.old result out.new }
{
    if out.len() < LENGTH {
        return 24;
    }
    let ran = runner::run(b, schedule);
    lay(out, state_written::bytes(last_state(&ran)));
    pack_ran(&ran)
}
