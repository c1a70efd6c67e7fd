// start.
ghost use Rattle.std.specs.Prelude.{◌≡◌, ℕ, ◌<◌};
ghost use Rattle.ground.specs.Bytes.{at};
ghost use Rattle.bundle.specs.Program.{Program, method_at};
ghost use Rattle.state.specs.declared.State.{State};
ghost use Rattle.turns.specs.Answers.{unless_drawn};
ghost use Rattle.turns.specs.Faults.{is_object, is_argument, argument_at, arguments_ok, start_fault};
ghost use Rattle.turns.specs.Waits.{start_wait};
ghost use Rattle.turns.specs.Moves.{start_move};
ghost use Rattle.turns.specs.Turns.{turned};

use crate::{Answer, Change, Turn, moves};
use bundle::Record;
use threads::Thread;
use values::Slot;

pub(crate) fn is_object(classes: &[u8], c: u8, x: Slot) -> bool
    ensures { result ≡ is_object classes.now c x }
{
    if !values::is_ref(x) {
        return false;
    }
    ground::byte(classes, values::object_of(x) as usize) == c
}

fn is_argument(classes: &[u8], d: u8, x: Slot) -> bool
    ensures { result ≡ is_argument classes.now d x }
{
    if d == 255 {
        return values::is_int(x);
    }
    is_object(classes, d, x)
}

// The descriptors of the arguments come first in the record.
fn argument_at(classes: &[u8], t: Thread, m: &Record, j: u8) -> bool
    ensures { result ≡ argument_at classes.now t (at m.now.bytes.now) j }
{
    is_argument(
        classes,
        ground::byte(m.bytes, j as usize),
        threads::from_top(t, j),
    )
}

fn arguments_ok(classes: &[u8], t: Thread, m: &Record, c: u8) -> bool
    ensures { result ≡ arguments_ok classes.now t m.now.class.args (at m.now.bytes.now) c }
{
    for j in 0..m.class.args {
        if !argument_at(classes, t, m, j) {
            return false;
        }
    }
    is_object(classes, c, threads::from_top(t, m.class.args))
}

// The new thread gets its number where the state is.
fn start_turn(classes: &[u8], t: Thread, m: &Record, c: u8) -> Result<Turn, Answer>
    requires { t.at.0 < 65535 }
    ensures { (P : Program) (s : State) (i : ℕ) → s.classes ≡ classes.now → turned P s i t result ≡ unless_drawn (start_fault s.classes t m.now.class.args (at m.now.bytes.now) c) s (unless_drawn (start_wait s) s (start_move s i t m.now.class.args c)) }
{
    let args = m.class.args;
    if t.depth <= args {
        return Err(Answer::StackShort);
    }
    if !arguments_ok(classes, t, m, c) {
        return Err(Answer::WrongKind);
    }
    let u = threads::pop(t, args + 1);
    Ok(moves::went_on(t.at, u, Change::Begin(c, args)))
}

pub(crate) fn start_class(b: &[u8], classes: &[u8], t: Thread, c: u8) -> Result<Turn, Answer>
    requires { t.at.0 < 65535 }
    ensures { (P : Program) (s : State) (i : ℕ) → s.classes ≡ classes.now → turned P s i t result ≡ unless_drawn (start_fault s.classes t (method_at b.now c).args (method_at b.now c).descriptor c) s (unless_drawn (start_wait s) s (start_move s i t (method_at b.now c).args c)) }
{
    start_turn(classes, t, &bundle::record_at(b, c), c)
}
