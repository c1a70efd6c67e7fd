// getfield and putfield, and what the fields of a new object hold.
ghost use Rattle.std.specs.Prelude.{◌≡◌, ◌<◌};
ghost use Rattle.bundle.specs.Program.{Program, method_of, method_at};
ghost use Rattle.state.specs.declared.State.{State};
ghost use Rattle.turns.specs.Answers.{unless_drawn};
ghost use Rattle.turns.specs.Faults.{may_be_object, is_field_value, get_fault, put_fault};
ghost use Rattle.turns.specs.Moves.{first_field, first_fields, get_move, put_move};
ghost use Rattle.turns.specs.Turns.{turned};

use crate::{Answer, Change, Turn, View, ends, moves, starts};
use bundle::{Class, Record};
use instructions::Addr;
use threads::Thread;
use values::Slot;

fn first_field(m: &Record, j: u8) -> Slot
    ensures { result ≡ first_field (method_of m.now.class m.now.bytes.now) j }
{
    if m.class.fields <= j {
        return values::zero_slot();
    }
    if m.field_at(j) == 255 {
        return values::zero_slot();
    }
    values::null_slot()
}

pub fn first_fields(b: &[u8], c: u8) -> [Slot; 4]
    ensures { result ≡ first_fields (method_at b.now c) }
{
    let m = bundle::record_at(b, c);
    [
        first_field(&m, 0),
        first_field(&m, 1),
        first_field(&m, 2),
        first_field(&m, 3),
    ]
}

fn may_be_object(classes: &[u8], c: u8, x: Slot) -> bool
    ensures { result ≡ may_be_object classes.now c x }
{
    if values::is_null(x) {
        return true;
    }
    starts::is_object(classes, c, x)
}

fn is_field_value(classes: &[u8], d: u8, x: Slot) -> bool
    ensures { result ≡ is_field_value classes.now d x }
{
    if d == 255 {
        return values::is_int(x);
    }
    may_be_object(classes, d, x)
}

// A null owner throws object 0, as a failed new does.
pub(crate) fn get_turn(
    view: &View,
    t: Thread,
    k: Class,
    c: u8,
    f: u8,
    h: Addr,
) -> Result<Turn, Answer>
    requires { t.at.0 < 65535 }
    ensures { (P : Program) (s : State) → s.counts ≡ view.now.counts.now → s.classes ≡ view.now.classes.now → turned P s view.now.number t result ≡ unless_drawn (get_fault s view.now.number t c k.limit h) s (get_move s view.now.number t k.vars f h) }
{
    if t.depth < 1 {
        return Err(Answer::StackShort);
    }
    let x = threads::top(t);
    if !may_be_object(view.classes, c, x) {
        return Err(Answer::WrongKind);
    }
    if values::is_null(x) {
        return ends::throw_turn(view, t, k, h, values::ref_slot(0));
    }
    Ok(moves::went_on(t.at, t, Change::Top(values::object_of(x), f)))
}

// The value is on top, the owner below it; `d` is the field's descriptor.
pub(crate) fn put_turn(
    view: &View,
    t: Thread,
    k: Class,
    c: u8,
    d: u8,
    f: u8,
    h: Addr,
) -> Result<Turn, Answer>
    requires { t.at.0 < 65535 }
    ensures { (P : Program) (s : State) → s.counts ≡ view.now.counts.now → s.classes ≡ view.now.classes.now → turned P s view.now.number t result ≡ unless_drawn (put_fault s view.now.number t c d k.limit h) s (put_move s view.now.number t k.vars f h) }
{
    if t.depth < 2 {
        return Err(Answer::StackShort);
    }
    let x = threads::top(t);
    let y = threads::from_top(t, 1);
    if !(is_field_value(view.classes, d, x) & may_be_object(view.classes, c, y)) {
        return Err(Answer::WrongKind);
    }
    if values::is_null(y) {
        return ends::throw_turn(view, t, k, h, values::ref_slot(0));
    }
    let u = threads::pop(t, 2);
    Ok(moves::went_on(t.at, u, Change::Field(values::object_of(y), f, x)))
}
