// The question of document 02, Q-4: how many objects a thread holds, answered from its held word.
#![tactic(auto)]

ghost use Rattle.std.specs.Prelude.{◌≡◌, ◌≤◌, IfErr};
ghost use Rattle.turns.specs.Numbers.{answer_number};
ghost use Rattle.holding.specs.Question.{held_of, holding_in};

use state::State;
use turns::Answer;

// The number of objects, or 17, 18 or 5 as a step draws them.
pub fn held(b: &[u8], s: State, thread: u8) -> Result<u8, Answer>
    ensures number { holding_in result ≡ held_of b.now s thread }
    ensures refusal { IfErr result (λ a. 5 ≤ answer_number a) }
{
    if structure::structure(b).is_err() {
        return Err(Answer::BadBundle);
    }
    if !belongs::state_ok(b, s) {
        return Err(Answer::BadState);
    }
    if 8 <= thread {
        return Err(Answer::NotLive);
    }
    let k = thread as usize;
    if !s.threads[k].live {
        return Err(Answer::NotLive);
    }
    Ok(held::bits_set(s.held[k]))
}
