// A state of the machine as bytes, in the format of hveitmar_trace: 2,537 bytes.
#![tactic(auto)]

ghost use Rattle.std.specs.Prelude.{◌≡◌, List, ℕ, ◌+◌, ◌*◌, ◌<◌, ◌≤◌, replicate};
ghost use Rattle.ground.specs.Bytes.{at, be16, quad};
ghost use Rattle.ground.specs.Bounded.{all_below, set_below};
ghost use Rattle.state_bytes.specs.Format.{is_place, is_place_at, is_thread, is_state, place_of, thread_of, state_of};

use instructions::Addr;
use state::State;
use threads::Thread;
use values::Slot;

// Where each part of a state begins, and how long a state is.
const COUNTS: usize = 1320;

const OBJECTS: usize = 1832;

const CLASSES: usize = 1833;

const FIELDS: usize = 1865;

const WORDS: usize = 2505;

pub const LENGTH: usize = 2537;

// A thread's and a place's length.
const THREAD: usize = 165;

const PLACE: usize = 5;

// A reference is its low byte, and null has none.
fn is_place(g: &[u8], p: usize) -> bool
    requires { p < 4000 }
    ensures { result ≡ is_place g.now p }
{
    let kind = ground::byte(g, p);
    let rest = ground::quad(g, p + 1);
    if kind == 1 {
        return rest < 256;
    }
    if kind == 2 {
        return rest == 0;
    }
    kind == 0
}

fn are_places(g: &[u8], p: usize, n: usize) -> bool
    requires { (p < 2000) × (n ≤ 128) }
    ensures { result ≡ all_below n (is_place_at g.now p) }
{
    for i in 0..n {
        if !is_place(g, p + i * PLACE) {
            return false;
        }
    }
    true
}

fn is_thread(g: &[u8], p: usize) -> bool
    requires { p < 1320 }
    ensures { result ≡ is_thread g.now p }
{
    if 1 < ground::byte(g, p) {
        return false;
    }
    are_places(g, p + 5, 32)
}

pub fn is_state(g: &[u8]) -> bool
    ensures { result ≡ is_state g.now }
{
    if g.len() != LENGTH {
        return false;
    }
    if !are_places(g, FIELDS, 128) {
        return false;
    }
    for i in 0..8usize {
        if !is_thread(g, i * THREAD) {
            return false;
        }
    }
    true
}

// What a part of a state is made of, as it is read at a place of the bytes.
trait Stands: Sized {
    ghost WIDTH: { ℕ };

    const WIDTH: usize;

    ghost read_of: { List ℕ → ℕ → Self };

    fn read(g: &[u8], p: usize) -> Self
        requires { p + WIDTH ≤ 2537 }
        ensures { result ≡ read_of g.now p };
}

// `none` is only what the array holds before it is filled.
fn read_all<T: Stands + Copy, const N: usize>(g: &[u8], from: usize, none: T) -> [T; N]
    requires { from + N * T.WIDTH ≤ 2537 }
    ensures { result ≡ set_below N (λ i. T.read_of g.now (from + i * T.WIDTH)) (replicate N none) }
{
    let mut a = [none; N];
    for i in 0..N {
        a[i] = T::read(g, from + i * T::WIDTH);
    }
    a
}

impl Stands for u8 {
    ghost WIDTH = { 1 };

    const WIDTH: usize = 1;

    ghost read_of = { at };

    fn read(g: &[u8], p: usize) -> u8 {
        ground::byte(g, p)
    }
}

impl Stands for u16 {
    ghost WIDTH = { 2 };

    const WIDTH: usize = 2;

    ghost read_of = { be16 };

    fn read(g: &[u8], p: usize) -> u16 {
        ground::word(g, p)
    }
}

impl Stands for u32 {
    ghost WIDTH = { 4 };

    const WIDTH: usize = 4;

    ghost read_of = { quad };

    fn read(g: &[u8], p: usize) -> u32 {
        ground::quad(g, p)
    }
}

impl Stands for Slot {
    ghost WIDTH = { 5 };

    const WIDTH: usize = PLACE;

    ghost read_of = { place_of };

    fn read(g: &[u8], p: usize) -> Slot {
        let kind = ground::byte(g, p);
        if kind == 1 {
            return values::ref_slot(ground::byte(g, p + 4));
        }
        if kind == 2 {
            return values::null_slot();
        }
        values::int_slot(ground::quad(g, p + 1))
    }
}

impl Stands for Thread {
    ghost WIDTH = { 165 };

    const WIDTH: usize = THREAD;

    ghost read_of = { thread_of };

    #[tactic(auto, unfolding(crate::specs::Format::thread_of))]
    fn read(g: &[u8], p: usize) -> Thread {
        let vars = read_all(g, p + 5, values::zero_slot());
        let stack = read_all(g, p + 85, values::zero_slot());
        Thread {
            live: ground::byte(g, p) == 1,
            class: ground::byte(g, p + 1),
            at: Addr(ground::word(g, p + 2)),
            depth: ground::byte(g, p + 4),
            vars,
            stack,
        }
    }
}

// What is read of bytes that is_state refuses means nothing.
#[tactic(auto, unfolding(crate::specs::Format::state_of))]
pub fn state(g: &[u8]) -> State
    ensures { result ≡ state_of g.now }
{
    State {
        threads: read_all(g, 0, threads::idle()),
        counts: read_all(g, COUNTS, 0),
        objects: ground::byte(g, OBJECTS),
        classes: read_all(g, CLASSES, 0),
        fields: read_all(g, FIELDS, values::zero_slot()),
        held: read_all(g, WORDS, 0),
    }
}
