// start.
ghost use Rattle.std.specs.Prelude.{◌≡◌, ◌<◌, IfSome};
ghost use Rattle.turns.specs.Numbers.{answer_number};
ghost use Rattle.runner.specs.Memory.{acted};
ghost use Rattle.runner.specs.Starts.{place_in, lowest_in, started_in};

use crate::running::{Here, Memory};
use memory::Frame;
use turns::Answer;

// The lowest thread number that is free.
fn lowest(frames: &[Frame; 8]) -> Option<usize>
    ensures place { place_in result ≡ lowest_in frames.now }
    ensures within { IfSome result (λ j. j < 8) }
{
    frames.iter().position(|frame| !frame.live())
}

// Crowded where eight threads are live.
pub(crate) fn start(m: &mut Memory, here: Here, n: u8, c: u8) -> Answer
    requires { (here.thread < 8) × (n < 255) }
    ensures { acted (answer_number result) m.new ≡ started_in m.old here.thread n c here.next }
{
    match lowest(&m.frames) {
        None => Answer::Crowded,
        Some(j) => {
            let vars = m.frames[here.thread].arguments(n);
            m.frames[j].begin(vars, c);
            m.frames[here.thread].drop(n + 1, here.next);
            Answer::WentOn
        }
    }
}
