// return, athrow and new.
ghost use Rattle.std.specs.Prelude.{◌≡◌, ℕ, ◌<◌};
ghost use Rattle.bundle.specs.Program.{Program};
ghost use Rattle.threads.specs.Threads.{top_of};
ghost use Rattle.state.specs.declared.State.{State};
ghost use Rattle.turns.specs.Answers.{unless_drawn};
ghost use Rattle.turns.specs.Numbers.{answer_number};
ghost use Rattle.turns.specs.Faults.{push_fault, end_fault, throw_fault, athrow_fault, new_fault};
ghost use Rattle.turns.specs.Moves.{end_move, throw_move, make_move, new_move};
ghost use Rattle.turns.specs.Turns.{turned};

use crate::{Answer, Change, Turn, View, moves, starts};
use bundle::Class;
use instructions::Addr;
use threads::Thread;
use values::Slot;

pub(crate) fn end_turn(view: &View, t: Thread, vars: u8, answer: Answer) -> Result<Turn, Answer>
    ensures { (P : Program) (s : State) → s.counts ≡ view.now.counts.now → turned P s view.now.number t result ≡ unless_drawn (end_fault s.counts view.now.number) s (end_move s view.now.number t vars (answer_number answer)) }
{
    if !state::holds_nothing(view.counts, view.number) {
        return Err(Answer::StillHolds);
    }
    Ok(Turn {
        thread: threads::end(t, vars),
        answer,
        change: Change::Alone,
    })
}

// x is thrown.
pub(crate) fn throw_turn(view: &View, t: Thread, k: Class, h: Addr, x: Slot) -> Result<Turn, Answer>
    ensures { (P : Program) (s : State) → s.counts ≡ view.now.counts.now → turned P s view.now.number t result ≡ unless_drawn (throw_fault s.counts view.now.number k.limit h) s (throw_move s view.now.number t k.vars h x) }
{
    if h.0 == 0 {
        return end_turn(view, t, k.vars, Answer::Uncaught);
    }
    if k.limit < 1 {
        return Err(Answer::StackFull);
    }
    Ok(moves::went_to(threads::push(threads::pop(t, t.depth), x), h))
}

pub(crate) fn athrow_turn(
    view: &View,
    t: Thread,
    k: Class,
    exception: u8,
    h: Addr,
) -> Result<Turn, Answer>
    ensures { (P : Program) (s : State) → s.counts ≡ view.now.counts.now → s.classes ≡ view.now.classes.now → turned P s view.now.number t result ≡ unless_drawn (athrow_fault s view.now.number t exception k.limit h) s (throw_move s view.now.number t k.vars h (top_of t)) }
{
    if t.depth < 1 {
        return Err(Answer::StackShort);
    }
    let x = threads::top(t);
    if !starts::is_object(view.classes, exception, x) {
        return Err(Answer::WrongKind);
    }
    throw_turn(view, t, k, h, x)
}

fn make_turn(objects: u8, t: Thread, limit: u8, c: u8) -> Result<Turn, Answer>
    requires { t.at.0 < 65535 }
    ensures { (P : Program) (s : State) (i : ℕ) → s.objects ≡ objects → turned P s i t result ≡ unless_drawn (push_fault t limit) s (make_move P s i t c) }
{
    if limit <= t.depth {
        return Err(Answer::StackFull);
    }
    let u = threads::push(t, values::ref_slot(objects));
    Ok(moves::went_on(t.at, u, Change::Object(c)))
}

// A failed new throws object 0.
pub(crate) fn new_turn(
    view: &View,
    t: Thread,
    k: Class,
    c: u8,
    h: Addr,
    fails: bool,
) -> Result<Turn, Answer>
    requires { t.at.0 < 65535 }
    ensures { (P : Program) (s : State) → s.counts ≡ view.now.counts.now → s.objects ≡ view.now.objects → turned P s view.now.number t result ≡ unless_drawn (new_fault s view.now.number t k.limit h fails) s (new_move P s view.now.number t k.vars c h fails) }
{
    if fails || 32 <= view.objects {
        return throw_turn(view, t, k, h, values::ref_slot(0));
    }
    make_turn(view.objects, t, k.limit, c)
}
