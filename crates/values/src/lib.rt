// A value of the machine, and what the instructions do with one.
#![tactic(auto)]

ghost use Rattle.std.specs.Prelude.{◌≡◌};
ghost use Rattle.values.specs.Values.{zero_slot, ref_slot, null_slot, int_slot, bits_of_slot, is_int, is_null, is_ref, object_of, inc_slot, jumps, refers};

#[derive(Clone, Copy, PartialEq, Eq)]
pub enum Value {
    Int(i32),
    Ref(u8),
    Null,
}

// A place that holds a value.
#[derive(Clone, Copy, PartialEq, Eq)]
pub struct Slot {
    pub value: Value,
}

pub fn zero_slot() -> Slot
    ensures { result ≡ zero_slot }
{
    Slot {
        value: Value::Int(0),
    }
}

pub fn ref_slot(o: u8) -> Slot
    ensures { result ≡ ref_slot o }
{
    Slot {
        value: Value::Ref(o),
    }
}

pub fn null_slot() -> Slot
    ensures { result ≡ null_slot }
{
    Slot { value: Value::Null }
}

// An integer from its 32 bits.
pub fn int_slot(w: u32) -> Slot
    ensures { result ≡ int_slot w }
{
    Slot {
        value: Value::Int(w.cast_signed()),
    }
}

pub fn bits_of(x: Slot) -> u32
    ensures { result ≡ bits_of_slot x }
{
    if let Value::Int(z) = x.value {
        z.cast_unsigned()
    } else {
        0
    }
}

pub fn is_int(x: Slot) -> bool
    ensures { result ≡ is_int x }
{
    matches!(x.value, Value::Int(_))
}

pub fn is_null(x: Slot) -> bool
    ensures { result ≡ is_null x }
{
    matches!(x.value, Value::Null)
}

pub fn is_ref(x: Slot) -> bool
    ensures { result ≡ is_ref x }
{
    matches!(x.value, Value::Ref(_))
}

pub fn object_of(x: Slot) -> u8
    ensures { result ≡ object_of x }
{
    if let Value::Ref(o) = x.value { o } else { 0 }
}

// inc wraps
pub fn inc_slot(x: Slot) -> Slot
    ensures { result ≡ inc_slot x }
{
    if let Value::Int(z) = x.value {
        Slot {
            value: Value::Int(z.wrapping_add(1)),
        }
    } else {
        x
    }
}

pub fn jumps(x: Slot) -> bool
    ensures { result ≡ jumps x }
{
    matches!(x.value, Value::Int(z) if z != 0)
}

pub fn refers(objects: u8, x: Slot) -> bool
    ensures { result ≡ refers objects x }
{
    match x.value {
        Value::Ref(o) => o < objects,
        _ => true,
    }
}
