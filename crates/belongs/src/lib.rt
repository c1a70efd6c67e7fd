// Answer 18 of documents 01 and 02: whether a state is one of a bundle.
#![tactic(auto)]

ghost use Rattle.std.specs.Prelude.{◌≡◌};
ghost use Rattle.bundle.specs.Program.{program_of};
ghost use Rattle.belongs.specs.Belongs.{places_refer, placed_ok, live_ok, thread_ok, first_ok, objects_ok, fields_ok, count_ok, thread_held_ok, bits_apart, state_ok};

use bundle::Class;
use state::State;
use threads::Thread;
use values::Slot;

// Past the sixteenth place there is integer 0.
fn places_refer(objects: u8, l: [Slot; 16], n: u8) -> bool
    ensures { result ≡ places_refer objects l n }
{
    for i in 0..n {
        let k = i as usize;
        if 16 <= k {
            return true;
        }
        if !values::refers(objects, l[k]) {
            return false;
        }
    }
    true
}

fn placed_ok(k: Class, objects: u8, t: Thread) -> bool
    ensures { result ≡ placed_ok k.code k.limit k.vars objects t }
{
    let at = t.at.0;
    if at < 1 {
        return false;
    }
    if k.code < at {
        return false;
    }
    if k.limit < t.depth {
        return false;
    }
    let vars = t.vars;
    if !places_refer(objects, vars, k.vars) {
        return false;
    }
    let stack = t.stack;
    places_refer(objects, stack, t.depth)
}

fn live_ok(b: &[u8], objects: u8, t: Thread) -> bool
    ensures { result ≡ live_ok (program_of b.now) objects t }
{
    if bundle::classes(b) <= t.class {
        return false;
    }
    placed_ok(bundle::class_at(b, t.class), objects, t)
}

fn thread_ok(b: &[u8], objects: u8, t: Thread) -> bool
    ensures { result ≡ thread_ok (program_of b.now) objects t }
{
    if !t.live {
        return true;
    }
    live_ok(b, objects, t)
}

fn first_ok(b: &[u8], objects: u8, classes: &[u8]) -> bool
    ensures { result ≡ first_ok (program_of b.now) objects classes.now }
{
    (1 <= objects) & (ground::byte(classes, 0) == bundle::exception(b))
}

fn objects_ok(b: &[u8], objects: u8, classes: &[u8]) -> bool
    ensures { result ≡ objects_ok (program_of b.now) objects classes.now }
{
    if !first_ok(b, objects, classes) {
        return false;
    }
    if 32 < objects {
        return false;
    }
    let n = bundle::classes(b);
    for o in 0..objects {
        if n <= ground::byte(classes, o as usize) {
            return false;
        }
    }
    true
}

// Both loops stand here, since a function for one object's fields would copy them all; past the last place there is integer 0.
fn fields_ok(b: &[u8], objects: u8, classes: &[u8], fields: [Slot; 128]) -> bool
    ensures { result ≡ fields_ok (program_of b.now) objects classes.now fields }
{
    for o in 0..objects {
        let n = bundle::class_at(b, ground::byte(classes, o as usize)).fields;
        for f in 0..n {
            let k = (o as usize) * 4 + (f as usize);
            if k < 128 && !values::refers(objects, fields[k]) {
                return false;
            }
        }
    }
    true
}

// Most counts are 0: that is asked first.
fn count_ok(objects: u8, live: bool, o: u8, n: u16) -> bool
    ensures { result ≡ count_ok objects live o n }
{
    if n == 0 {
        return true;
    }
    if 2047 < n {
        return false;
    }
    if objects <= o {
        return false;
    }
    live
}

// The word that the counts come to is made beside their test, and compared once.
fn thread_held_ok(counts: &[u16], objects: u8, live: bool, w: u32, i: u8) -> bool
    ensures { result ≡ thread_held_ok counts.now objects live w i }
{
    let mut made: u32 = 0;
    for o in 0..32 {
        let n = state::count(counts, i, o);
        if !count_ok(objects, live, o, n) {
            return false;
        }
        made = held::mark(made, o, n);
    }
    made == w
}

// Two holders of one object, asked of the words, which agree with the counts by then.
fn bits_apart(words: [u32; 8]) -> bool
    ensures { result ≡ bits_apart words }
{
    let mut taken: u32 = 0;
    for i in 0..8usize {
        let w = words[i];
        if !held::apart(taken, w) {
            return false;
        }
        taken |= w;
    }
    true
}

// One pass over the threads, since each function that takes the state copies it.
pub fn state_ok(b: &[u8], s: State) -> bool
    ensures { result ≡ state_ok (program_of b.now) s }
{
    if !objects_ok(b, s.objects, &s.classes) {
        return false;
    }
    let fields = s.fields;
    if !fields_ok(b, s.objects, &s.classes, fields) {
        return false;
    }
    for i in 0..8u8 {
        let k = i as usize;
        let t = s.threads[k];
        let w = s.held[k];
        if !thread_ok(b, s.objects, t) {
            return false;
        }
        if !thread_held_ok(&s.counts, s.objects, t.live, w, i) {
            return false;
        }
    }
    let words = s.held;
    bits_apart(words)
}
