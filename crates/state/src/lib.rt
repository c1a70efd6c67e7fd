// The machine's state: eight thread numbers, 32 objects, one count for each thread and each object, a held word for each thread, four field places for each object.
#![tactic(auto)]

ghost use Rattle.std.specs.Prelude.{◌≡◌};
ghost use Rattle.ground.specs.Bounded.{Told};
ghost use Rattle.state.specs.State.{thread_at, count_of, with_thread, field_of, with_field, with_object, empty_state, free_of, others_free, is_free, holds_nothing, lowest_free};

use threads::Thread;
use values::Slot;

#[derive(Clone, Copy, PartialEq, Eq)]
pub struct State {
    pub threads: [Thread; 8],
    pub counts: [u16; 256],
    pub objects: u8,
    pub classes: [u8; 32],
    pub fields: [Slot; 128],
    pub held: [u32; 8],
}

pub fn empty_state() -> State
    ensures { result ≡ empty_state }
{
    let t = threads::idle();
    let z = values::zero_slot();
    State {
        threads: [t; 8],
        counts: [0u16; 256],
        objects: 0,
        classes: [0u8; 32],
        fields: [z; 128],
        held: [0u32; 8],
    }
}

pub fn thread(s: State, i: u8) -> Thread
    ensures { result ≡ thread_at s i }
{
    let k = i as usize;
    if k < 8 { s.threads[k] } else { threads::idle() }
}

pub fn count(counts: &[u16], i: u8, o: u8) -> u16
    ensures { result ≡ count_of counts.now i o }
{
    let k = (i as usize) * 32 + (o as usize);
    if k < counts.len() { counts[k] } else { 0 }
}

pub fn put_thread(s: State, i: u8, t: Thread) -> State
    ensures { result ≡ with_thread s i t }
{
    let mut next = s;
    let k = i as usize;
    if k < 8 {
        next.threads[k] = t;
        return next;
    }
    next
}

pub fn put_field(s: State, o: u8, f: u8, x: Slot) -> State
    ensures { result ≡ with_field s o f x }
{
    let mut next = s;
    let k = (o as usize) * 4 + (f as usize);
    if k < 128 {
        next.fields[k] = x;
        return next;
    }
    next
}

pub fn field(fields: [Slot; 128], o: u8, f: u8) -> Slot
    ensures { result ≡ field_of fields o f }
{
    let k = (o as usize) * 4 + (f as usize);
    if k < 128 {
        fields[k]
    } else {
        values::zero_slot()
    }
}

// `first` is what the object's four field places hold.
pub fn add_object(s: State, c: u8, first: [Slot; 4]) -> State
    ensures { result ≡ with_object s c first }
{
    let mut next = s;
    let o = s.objects;
    let k = o as usize;
    if o < 32 {
        next.classes[k] = c;
        next.fields[k * 4] = first[0];
        next.fields[k * 4 + 1] = first[1];
        next.fields[k * 4 + 2] = first[2];
        next.fields[k * 4 + 3] = first[3];
        next.objects = o + 1;
        return next;
    }
    next
}

// Re-entry is no waiting: thread i itself never stands in its own way.
fn free_of(counts: &[u16], i: u8, o: u8, j: u8) -> bool
    ensures { result ≡ free_of counts.now i o j }
{
    if j == i {
        return true;
    }
    count(counts, j, o) == 0
}

pub fn others_free(counts: &[u16], i: u8, o: u8) -> bool
    ensures { result ≡ others_free counts.now i o }
{
    for j in 0..8 {
        if !free_of(counts, i, o, j) {
            return false;
        }
    }
    true
}

fn is_free(counts: &[u16], i: u8, o: u8) -> bool
    ensures { result ≡ is_free counts.now i o }
{
    count(counts, i, o) == 0
}

pub fn holds_nothing(counts: &[u16], i: u8) -> bool
    ensures { result ≡ holds_nothing counts.now i }
{
    for o in 0..32 {
        if !is_free(counts, i, o) {
            return false;
        }
    }
    true
}

// Asked of the threads alone, so that the state is not copied.
pub fn lowest_free(threads: [Thread; 8]) -> Option<u8>
    ensures { (s : State) → s.threads ≡ threads → Told 8 (lowest_free s) result }
{
    for i in 0..8u8 {
        if !threads[i as usize].live {
            return Some(i);
        }
    }
    None
}
