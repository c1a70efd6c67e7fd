// What a part of a state is made of, as bytes: numbers, big-endian, places and threads.
ghost use Rattle.std.specs.Prelude.{◌≡◌, refl, cond, List, ℕ, ◌∷◌, [], ◌+◌, ◌*◌, ◌%◌, ◌≤◌, length, get_or};
ghost use Rattle.ground.specs.Lists.{each};
ghost use Rattle.state_written.specs.Written.{written, kind_of, number_in, halves, quad_bytes, place_bytes, thread_bytes};
ghost use Rattle.state_written.specs.Widths.{thread-long};

use state_bytes::LENGTH;
use threads::Thread;
use values::{Slot, Value};

// A row of them is written by their width, and told by their bytes, which by the law are as many.
pub(crate) trait Laid {
    ghost WIDTH: { ℕ };

    const WIDTH: usize;

    ghost laid: { Self → List ℕ };

    fn put(&self, out: &mut [u8; LENGTH], p: usize)
        requires { p + WIDTH ≤ 2537 }
        ensures { out.new ≡ written p (laid self.now) out.old };

    ghost long: { (x : Self) → length (laid x) ≡ WIDTH };
}

impl Laid for u8 {
    ghost WIDTH = { 1 };

    const WIDTH: usize = 1;

    ghost laid = { λ n. n ∷ [] };

    fn put(&self, out: &mut [u8; LENGTH], p: usize) {
        out[p] = *self;
    }

    ghost long = { λ n. refl };
}

fn low(n: u32) -> u8
    ensures { result ≡ n % 256 }
{
    (n % 256) as u8
}

impl Laid for u16 {
    ghost WIDTH = { 2 };

    const WIDTH: usize = 2;

    ghost laid = { halves };

    fn put(&self, out: &mut [u8; LENGTH], p: usize) {
        let n = *self;
        out[p] = low((n / 256) as u32);
        out[p + 1] = low(n as u32);
    }

    ghost long = { λ n. refl };
}

impl Laid for u32 {
    ghost WIDTH = { 4 };

    const WIDTH: usize = 4;

    ghost laid = { quad_bytes };

    fn put(&self, out: &mut [u8; LENGTH], p: usize) {
        let n = *self;
        out[p] = low(n / 16777216);
        out[p + 1] = low(n / 65536);
        out[p + 2] = low(n / 256);
        out[p + 3] = low(n);
    }

    ghost long = { λ n. refl };
}

fn kind(x: Slot) -> u8
    ensures { result ≡ kind_of x }
{
    let v = x.value;
    match v {
        Value::Int(_) => 0,
        Value::Ref(_) => 1,
        Value::Null => 2,
    }
}

fn number(x: Slot) -> u32
    ensures { result ≡ number_in x }
{
    let v = x.value;
    match v {
        Value::Int(_) => values::bits_of(x),
        Value::Ref(o) => o as u32,
        Value::Null => 0,
    }
}

impl Laid for Slot {
    ghost WIDTH = { 5 };

    const WIDTH: usize = 5;

    ghost laid = { place_bytes };

    fn put(&self, out: &mut [u8; LENGTH], p: usize) {
        out[p] = kind(*self);
        number(*self).put(out, p + 1);
    }

    ghost long = { λ x. refl };
}

fn live_byte(live: bool) -> u8
    ensures { result ≡ cond live 1 0 }
{
    if live { 1 } else { 0 }
}

impl Laid for Thread {
    ghost WIDTH = { 165 };

    const WIDTH: usize = 165;

    ghost laid = { thread_bytes };

    fn put(&self, out: &mut [u8; LENGTH], p: usize) {
        out[p] = live_byte(self.live);
        out[p + 1] = self.class;
        self.at.0.put(out, p + 2);
        out[p + 4] = self.depth;
        put_all(out, p + 5, &self.vars);
        put_all(out, p + 85, &self.stack);
    }

    ghost long = { thread-long };
}

pub(crate) fn put_all<T: Laid>(out: &mut [u8; LENGTH], from: usize, l: &[T])
    requires { from + length l.now * T.WIDTH ≤ 2537 }
    ensures { (d : T) → out.new ≡ written from (each (length l.now) (λ i. T.laid (get_or l.now i d))) out.old }
{
    let mut p = from;
    for x in l {
        x.put(out, p);
        p += T::WIDTH;
    }
}
