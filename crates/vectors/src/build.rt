// Writes a bundle part by part: each function puts its bytes at a place of the lent buffer and gives back the place after them.
// Nothing is written past the buffer's first half.
use crate::grammar::Step;

// Room for one byte more than a bundle may have, and as much again for what `fill` leaves of it.
pub(crate) type Buffer = [u8; 131072];

fn byte(b: &mut Buffer, at: usize, x: u8) -> usize {
    if at < 65536 {
        b[at] = x;
        return at + 1;
    }
    at
}

// The bytes of a step, which are its numbers from one on.
fn put(b: &mut Buffer, at: usize, r: Step, from: usize) -> usize {
    let v = r.numbers;
    let mut p = at;
    for i in from..r.count {
        p = byte(b, p, low(&v, i));
    }
    p
}

fn low(v: &[u32], i: usize) -> u8 {
    if i < v.len() {
        return (v[i] % 256) as u8;
    }
    0
}

fn fill(b: &mut Buffer, at: u32, r: Step, n: u32) -> usize {
    let mut p = at as usize;
    for _ in 0..n {
        p = put(b, p, r, 2);
    }
    p
}

// So many entries of one kind, the other bytes 0.
fn entries(b: &mut Buffer, at: usize, kind: u8, n: u32) -> usize {
    let mut p = at;
    for _ in 0..n {
        p = byte(b, p, kind);
        p = byte(b, p, 0);
        p = byte(b, p, 0);
        p = byte(b, p, 0);
    }
    p
}

// V variable entries, all of them Top (the four bytes 2, 0, 0, 0), the depth 0 and K stack entries of zeros.
fn rows(b: &mut Buffer, at: u32, vars: u32, limit: u32, n: u32) -> usize {
    let mut p = at as usize;
    for _ in 0..n {
        p = entries(b, p, 2, vars);
        p = byte(b, p, 0);
        p = entries(b, p, 0, limit);
    }
    p
}

// In the bundles `bench` and `yard` the code of class c stands at 120c + 9 and its rows of 25 bytes from 120c + 25; address l of class c is written 10c + l.
fn bench_code(l: u32) -> usize {
    (120 * (l % 256 / 10) + 4 * (l % 10) + 5) as usize
}

fn bench_row(l: u32, i: u32, k: u32) -> usize {
    (120 * (l % 256 / 10) + 25 * (l % 10) + 4 * (i % 16) + k % 16) as usize
}

// The depth that ends with an entry of the stack.
fn deeper(i: u32) -> u8 {
    (i % 16) as u8 + 1
}

// A step that writes bytes, by its capital.
pub(crate) fn write(b: &mut Buffer, r: Step) -> usize {
    let v = r.numbers;
    let first = v[0];
    let second = v[1];
    let third = v[2];
    let of = r.of;
    match of {
        b'R' => rows(b, first, second, third, v[3]),
        b'I' => put(b, bench_code(first), r, 1),
        b'K' => put(b, bench_row(first, second, third), r, 3),
        b'D' => {
            byte(b, bench_row(first, 0, 8), deeper(second));
            put(b, bench_row(first, second, third), r, 3)
        }
        _ => fill(b, first, r, second),
    }
}
