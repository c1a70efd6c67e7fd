// monitorenter and monitorexit. A count belongs to the object, so two variables that name one object count together.
ghost use Rattle.std.specs.Prelude.{◌≡◌, ◌<◌};
ghost use Rattle.bundle.specs.Program.{Program};
ghost use Rattle.state.specs.declared.State.{State};
ghost use Rattle.turns.specs.Answers.{unless_drawn};
ghost use Rattle.turns.specs.Faults.{enter_fault, exit_fault};
ghost use Rattle.turns.specs.Waits.{enter_wait};
ghost use Rattle.turns.specs.Moves.{enter_move, exit_move};
ghost use Rattle.turns.specs.Turns.{turned};

use crate::{Answer, Change, Turn, View, ends, moves};
use bundle::Class;
use instructions::{Addr, Var};
use threads::Thread;

// Null throws object 0, as a failed new does.
pub(crate) fn enter_turn(view: &View, t: Thread, k: Class, v: Var, h: Addr) -> Result<Turn, Answer>
    requires { t.at.0 < 65535 }
    ensures { (P : Program) (s : State) → s.counts ≡ view.now.counts.now → turned P s view.now.number t result ≡ unless_drawn (enter_fault s.counts view.now.number t v k.limit h) s (unless_drawn (enter_wait s.counts view.now.number t v) s (enter_move s view.now.number t k.vars v h)) }
{
    let x = threads::var(t, v);
    if values::is_int(x) {
        return Err(Answer::WrongKind);
    }
    if values::is_null(x) {
        return ends::throw_turn(view, t, k, h, values::ref_slot(0));
    }
    let o = values::object_of(x);
    let n = state::count(view.counts, view.number, o);
    if 2047 <= n {
        return Err(Answer::CountFull);
    }
    if !state::others_free(view.counts, view.number, o) {
        return Err(Answer::Taken);
    }
    Ok(moves::went_on(t.at, t, Change::Count(o, n + 1)))
}

pub(crate) fn exit_turn(view: &View, t: Thread, v: Var) -> Result<Turn, Answer>
    requires { t.at.0 < 65535 }
    ensures { (P : Program) (s : State) → s.counts ≡ view.now.counts.now → turned P s view.now.number t result ≡ unless_drawn (exit_fault s.counts view.now.number t v) s (exit_move s view.now.number t v) }
{
    let x = threads::var(t, v);
    if !values::is_ref(x) {
        return Err(Answer::WrongKind);
    }
    let o = values::object_of(x);
    let n = state::count(view.counts, view.number, o);
    if n <= 0 {
        return Err(Answer::NotHeld);
    }
    Ok(moves::went_on(t.at, t, Change::Count(o, n - 1)))
}
