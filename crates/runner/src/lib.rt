// Document 02, Q-7: a bundle is checked once, and a list of steps is run in place. What a step would check is what the verdict and the invariant of soundness give,
// so no line here can answer 11 to 18.
#![tactic(auto)]

mod fields;
mod locks;
mod objects;
mod running;
mod starts;
mod table;
mod turn;

ghost use Rattle.std.specs.Prelude.{◌≡◌, Ok, leb};
ghost use Rattle.turns.specs.Numbers.{answer_number};
ghost use Rattle.verdicts.specs.Numbers.{judgement};
ghost use Rattle.verifier.specs.Verdict.{verdict_of};
ghost use Rattle.runner.specs.Run.{ran_in, ran_of};

use memory::Frame;
use running::Memory;
use state::State;
use turns::Answer;
use verdicts::Refusal;

// The last state, how many steps answered 0, 1 or 2, and the class count of the bundle. The state comes first, with no gap before it.
#[derive(Clone, Copy)]
pub struct Ran {
    pub state: State,
    pub steps: usize,
    pub classes: u8,
}

// Whether a step changes the state: the answers 0, 1 and 2.
fn is_taken(x: Answer) -> bool
    ensures { result ≡ leb (answer_number x) 2 }
{
    matches!(x, Answer::WentOn | Answer::Returned | Answer::Uncaught)
}

// The arrays are local, and lent to the steps: nothing of the state is copied before the end.
fn accepted(b: &[u8], schedule: &[u8], classes: u8) -> Ran
    requires { judgement (Ok classes) ≡ verdict_of b.now }
    ensures { ran_in (Ok result) ≡ ran_of b.now schedule.now }
{
    let table = table::table_of(b);
    let mut m = Memory {
        frames: [Frame::new(); 8],
        counts: [0; 256],
        held: [0; 8],
        objects: 0,
        classes: [0; 32],
        fields: [0; 128],
    };
    let mut steps: usize = 0;
    let c = bundle::exception(b);
    objects::add(&mut m, c, &table[c as usize].first);
    m.frames[0].begin([0; 16], 0);
    for x in schedule {
        if is_taken(turn::turn(b, &table, &mut m, *x)) {
            steps += 1;
        }
    }
    Ran {
        state: m.state(),
        steps,
        classes,
    }
}

// Refused where the bundle is.
pub fn run(b: &[u8], schedule: &[u8]) -> Result<Ran, Refusal>
    ensures { ran_in result ≡ ran_of b.now schedule.now }
{
    let classes = verifier::verify(b)?;
    Ok(accepted(b, schedule, classes))
}
