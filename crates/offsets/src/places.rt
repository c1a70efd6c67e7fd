// Places of the code that were passed lately, so that a search for an offset need not begin at 0, however long the code is. A branch and a handler reach no further
// than 65,535 bytes: the index keeps one place of each 32 bytes of the last 131,072 that were passed, in a ring. No answer depends on it.
ghost use Rattle.std.specs.Prelude.{◌≡◌, ◌+◌, ◌≤◌, ◌<◌, length, eqb};
ghost use Rattle.java.specs.Instructions.{java_at, size_at, gives_of};
ghost use Rattle.offsets.specs.Offsets.{begins, count_to};
ghost use Rattle.offsets.specs.Index.{Stands, Indexed};

pub(crate) const PLACES: usize = 4096;

// An offset at which an instruction begins, and the number of instructions written before it.
#[derive(Clone, Copy)]
pub(crate) struct Place {
    pub(crate) at: usize,
    pub(crate) count: usize,
}

pub(crate) const FIRST: Place = Place { at: 0, count: 0 };

// The place right behind the instruction at one.
pub(crate) fn next(code: &[u8], x: Place) -> Place
    requires { Stands code.now x.at x.count × (x.at < length code.now) }
    ensures { Stands code.now result.at result.count × (x.at < result.at) × (result.at ≡ x.at + size_at code.now x.at) × (result.count ≡ x.count + gives_of (java_at code.now x.at)) }
{
    let r = java::read_at(code, x.at);
    Place {
        at: x.at + r.size,
        count: x.count + java::gives(r.java),
    }
}

// From a place at or before t on to the first instruction that begins at t or after, with the count at t.
fn walk(code: &[u8], from: Place, t: usize) -> Place
    requires { Stands code.now from.at from.count × (from.at ≤ t) × (t < length code.now) }
    ensures { (eqb result.at t ≡ begins code.now t) × (result.count ≡ count_to code.now t) }
{
    let mut x = from;
    while x.at < t {
        x = next(code, x);
    }
    x
}

// How far ahead of p the index should reach.
pub(crate) fn window_end(code: &[u8], p: usize) -> usize
    requires { p ≤ length code.now }
    ensures { result ≤ length code.now }
{
    if code.len() - p <= 65536 {
        return code.len();
    }
    p + 65536
}

// Every place from one on to the first at or past the goal: the last one in each stretch of 32 bytes is the index's entry for the next stretch.
pub(crate) fn reach(code: &[u8], index: &mut [Place; PLACES], from: Place, goal: usize) -> Place
    requires { Stands code.now from.at from.count × Indexed code.now index.old × (goal ≤ length code.now) }
    ensures { Stands code.now result.at result.count × Indexed code.now index.new }
{
    let mut x = from;
    while x.at < goal {
        index[(x.at / 32 + 1) % PLACES] = x;
        x = next(code, x);
    }
    x
}

// The place of offset t: the walk begins at the index's entry for its stretch, if that is not past t.
pub(crate) fn seek(code: &[u8], index: &[Place; PLACES], t: usize) -> Place
    requires { Indexed code.now index.now × (t < length code.now) }
    ensures { (eqb result.at t ≡ begins code.now t) × (result.count ≡ count_to code.now t) }
{
    let x = index[t / 32 % PLACES];
    if x.at <= t {
        return walk(code, x, t);
    }
    walk(code, FIRST, t)
}
