// C calls on byte slices, for tests, benchmarks and Rust callers.
#![tactic(auto)]

mod filling;
mod methods;
mod runs;
mod texts;

ghost use Rattle.std.specs.Prelude.{◌≡◌, ◌≤◌, ◌<◌};
ghost use Rattle.verifier.specs.Verdict.{verdict_of};
ghost use Rattle.order.specs.Verdict.{ordered_verdict_of};
ghost use Rattle.machine.specs.Machine.{fresh_of, step_of};
ghost use Rattle.history.specs.Met.{object_answered, met_in};
ghost use Rattle.exports.specs.Exports.{packed, packed_record, packed_held, object_number, packed_met, begun, advanced, scheduled, digest_of, answers_of, met_after};

use history::Met;
use state::State;
use verdicts::Verdict;

// A machine on its way, and its answers so far, mixed into one number. The number comes first: behind the state it would leave a gap, and the state would be copied once more.
#[derive(Clone, Copy)]
struct Running {
    digest: u64,
    state: State,
}

fn pack(v: Verdict) -> u64
    ensures { result ≡ packed v }
{
    v.number as u64
        + 256 * (v.class as u64)
        + 65536 * (v.address as u64)
        + 4294967296 * (v.why as u64)
}

// The verdict on a bundle: the number in the low byte, the class in the next, the address in the two above, why in the upper half.
#[unsafe(no_mangle)]
pub extern "C" fn hveitmar_verdict(b: &[u8]) -> u64
    ensures { result ≡ packed (verdict_of b.now) }
{
    pack(verdicts::in_numbers(verifier::verify(b)))
}

// .. under the lock order that the levels give: levels has eight bytes, byte c is class c's level; any other length is 26, before all else.
#[unsafe(no_mangle)]
pub extern "C" fn hveitmar_ordered(b: &[u8], levels: &[u8]) -> u64
    ensures { result ≡ packed (ordered_verdict_of b.now levels.now) }
{
    pack(verdicts::in_numbers(order::verify_ordered(b, levels)))
}

// The record of a class: its offset in the low half, its length in the upper; 0 where there is none.
#[unsafe(no_mangle)]
pub extern "C" fn hveitmar_record(b: &[u8], class: u8) -> u64
    ensures { result ≡ packed_record b.now class }
{
    let n = structure::record(b, class).len();
    if n == 0 {
        return 0;
    }
    4294967296 * ((n % 65536) as u64) + bundle::class_at(b, class).offset as u64
}

// How many objects a thread holds in a state that comes as bytes: the answer times 256, and the number; 4294901760 where they are no state.
#[unsafe(no_mangle)]
pub extern "C" fn hveitmar_held(b: &[u8], g: &[u8], thread: u8) -> u32
    ensures { result ≡ packed_held b.now g.now thread }
{
    if !state_bytes::is_state(g) {
        return 4294901760;
    }
    match holding::held(b, state_bytes::state(g), thread) {
        Ok(number) => number as u32,
        Err(answer) => 256 * (answer.number() as u32),
    }
}

fn advance(b: &[u8], r: Running, thread: u8, fails: bool) -> Running
    requires { r.digest < 4294967296 }
    ensures { (result ≡ advanced r.digest (step_of b.now r.state thread fails)) × (result.digest < 4294967296) }
{
    let s = r.state;
    let o = machine::step(b, s, thread, fails);
    let next = o.state;
    Running {
        state: next,
        digest: (r.digest * 31 + (o.answer.number() as u64)) % 4294967296,
    }
}

fn begin(b: &[u8]) -> Running
    ensures { (result ≡ begun (fresh_of b.now)) × (result.digest < 4294967296) }
{
    let f = machine::fresh(b);
    let s = f.state;
    Running {
        state: s,
        digest: f.answer.number() as u64,
    }
}

// A schedule from the fresh machine.
fn ran(b: &[u8], schedule: &[u8]) -> Running
    ensures { result ≡ scheduled b.now schedule.now }
{
    let mut r = begin(b);
    for x in schedule {
        r = advance(b, r, *x % 16, 128 <= *x);
    }
    r
}

// All answers of a schedule from the fresh machine, mixed into one number: equal numbers for equal answers.
#[unsafe(no_mangle)]
pub extern "C" fn hveitmar_digest(b: &[u8], schedule: &[u8]) -> u64
    ensures { result ≡ digest_of b.now schedule.now }
{
    ran(b, schedule).digest
}

// The same of steps of any thread number: its byte, and beside it 1 where an allocation fails.
#[unsafe(no_mangle)]
pub extern "C" fn hveitmar_answers(b: &[u8], threads: &[u8], fails: &[u8]) -> u64
    ensures { result ≡ answers_of b.now threads.now fails.now }
{
    let mut r = begin(b);
    for i in 0..threads.len() {
        r = advance(b, r, threads[i], 1 <= ground::byte(fails, i));
    }
    r.digest
}

fn object_number(o: Option<u8>) -> u64
    ensures { (result ≡ object_number (object_answered o)) × (result ≤ 256) }
{
    match o {
        None => 0,
        Some(n) => n as u64 + 1,
    }
}

fn pack_met(m: Met) -> u64
    ensures { result ≡ packed_met (met_in m) }
{
    let x = m.instruction;
    let o = m.object;
    let n = object_number(o);
    x.opcode as u64 + 256 * (x.operand as u64) + 65536 * (x.address as u64) + 4294967296 * n
}

// What a step of the thread meets after a schedule from the fresh machine: the opcode in the low byte, the operand in the next, the address field in the two above,
// and in the upper half the object's number and one, or 0 where it meets none.
#[unsafe(no_mangle)]
pub extern "C" fn hveitmar_meets(b: &[u8], schedule: &[u8], thread: u8) -> u64
    ensures { result ≡ met_after b.now schedule.now thread }
{
    let s = ran(b, schedule).state;
    pack_met(history::meets(b, s, thread))
}
