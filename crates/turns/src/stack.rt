// inc, pop, push0, load, store and if.
ghost use Rattle.std.specs.Prelude.{◌≡◌, ℕ, ◌<◌};
ghost use Rattle.bundle.specs.Program.{Program};
ghost use Rattle.state.specs.declared.State.{State};
ghost use Rattle.turns.specs.Answers.{unless_drawn};
ghost use Rattle.turns.specs.Faults.{top_fault, int_fault, push_fault};
ghost use Rattle.turns.specs.Moves.{inc_move, pop_move, push0_move, load_move, store_move, if_move};
ghost use Rattle.turns.specs.Turns.{turned};

use crate::{Answer, Change, Turn, moves};
use instructions::{Addr, Var};
use threads::Thread;

pub(crate) fn inc_turn(t: Thread) -> Result<Turn, Answer>
    requires { t.at.0 < 65535 }
    ensures { (P : Program) (s : State) (i : ℕ) → turned P s i t result ≡ unless_drawn (int_fault t) s (inc_move s i t) }
{
    if t.depth < 1 {
        return Err(Answer::StackShort);
    }
    let x = threads::top(t);
    if !values::is_int(x) {
        return Err(Answer::WrongKind);
    }
    let u = threads::set_top(t, values::inc_slot(x));
    Ok(moves::went_on(t.at, u, Change::Alone))
}

pub(crate) fn pop_turn(t: Thread) -> Result<Turn, Answer>
    requires { t.at.0 < 65535 }
    ensures { (P : Program) (s : State) (i : ℕ) → turned P s i t result ≡ unless_drawn (top_fault t) s (pop_move s i t) }
{
    if t.depth < 1 {
        return Err(Answer::StackShort);
    }
    Ok(moves::went_on(t.at, threads::pop(t, 1), Change::Alone))
}

pub(crate) fn push0_turn(t: Thread, limit: u8) -> Result<Turn, Answer>
    requires { t.at.0 < 65535 }
    ensures { (P : Program) (s : State) (i : ℕ) → turned P s i t result ≡ unless_drawn (push_fault t limit) s (push0_move s i t) }
{
    if limit <= t.depth {
        return Err(Answer::StackFull);
    }
    let u = threads::push(t, values::zero_slot());
    Ok(moves::went_on(t.at, u, Change::Alone))
}

pub(crate) fn load_turn(t: Thread, limit: u8, v: Var) -> Result<Turn, Answer>
    requires { t.at.0 < 65535 }
    ensures { (P : Program) (s : State) (i : ℕ) → turned P s i t result ≡ unless_drawn (push_fault t limit) s (load_move s i t v) }
{
    if limit <= t.depth {
        return Err(Answer::StackFull);
    }
    let u = threads::push(t, threads::var(t, v));
    Ok(moves::went_on(t.at, u, Change::Alone))
}

pub(crate) fn store_turn(t: Thread, v: Var) -> Result<Turn, Answer>
    requires { t.at.0 < 65535 }
    ensures { (P : Program) (s : State) (i : ℕ) → turned P s i t result ≡ unless_drawn (top_fault t) s (store_move s i t v) }
{
    if t.depth < 1 {
        return Err(Answer::StackShort);
    }
    let u = threads::pop(threads::store(t, v, threads::top(t)), 1);
    Ok(moves::went_on(t.at, u, Change::Alone))
}

pub(crate) fn if_turn(t: Thread, a: Addr) -> Result<Turn, Answer>
    requires { t.at.0 < 65535 }
    ensures { (P : Program) (s : State) (i : ℕ) → turned P s i t result ≡ unless_drawn (int_fault t) s (if_move s i t a) }
{
    if t.depth < 1 {
        return Err(Answer::StackShort);
    }
    let x = threads::top(t);
    if !values::is_int(x) {
        return Err(Answer::WrongKind);
    }
    let u = threads::pop(t, 1);
    if values::jumps(x) {
        return Ok(moves::went_to(u, a));
    }
    Ok(moves::went_on(t.at, u, Change::Alone))
}
