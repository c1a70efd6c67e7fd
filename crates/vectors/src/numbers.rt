// The numbers of a step.
ghost use Rattle.std.specs.Prelude.{◌≤◌, IfSome};

use crate::words;

// The greatest number that a step has.
const MOST: u64 = 4294967295;

fn within(n: u64, limit: u64) -> Option<u64>
    ensures { IfSome result (λ m. m ≤ limit) }
{
    if n <= limit { Some(n) } else { None }
}

// A number with one more decimal digit.
fn longer(n: u64, digit: u8) -> Option<u64> {
    if !digit.is_ascii_digit() {
        return None;
    }
    within(within(n, MOST)? * 10 + (digit - b'0') as u64, MOST)
}

fn decimal(w: &[u8]) -> Option<u64> {
    if w.is_empty() {
        return None;
    }
    let mut n: u64 = 0;
    for digit in w {
        n = longer(n, *digit)?;
    }
    Some(n)
}

// A number up to a limit.
fn upto(w: &[u8], limit: u64) -> Option<u64>
    ensures { IfSome result (λ m. m ≤ limit) }
{
    within(decimal(w)?, limit)
}

// A number that may be left out, and is 0 then.
fn or_zero(w: &[u8], limit: u64) -> Option<u64> {
    if w.is_empty() {
        return Some(0);
    }
    upto(w, limit)
}

// A number from -least up to most, as it is above -least.
fn above(w: &[u8], least: u64, most: u64) -> Option<u64> {
    if ground::byte(w, 0) == b'-' {
        return Some(least - upto(words::from(w, 1), least)?);
    }
    Some(std::num::wrapping_add_u64(least, upto(w, most)?))
}

// An integer of 32 bits, as the number of its bits.
fn integer(w: &[u8]) -> Option<u64> {
    let n = within(above(w, 2147483648, 2147483647)?, MOST)?;
    if n < 2147483648 {
        Some(n + 2147483648)
    } else {
        Some(n - 2147483648)
    }
}

// An instruction's name stands for its number, which is its place here; any other opcode is written as a number.
fn opcode(w: &[u8]) -> Option<u64> {
    match words::place_in(
        b"inc pop push0 load store if enter exit new start athrow return getfield putfield",
        w,
    ) {
        Some(place) => Some(place),
        None => upto(w, 255),
    }
}

// What a word is where a form has such a letter, if it is one; an end is 64 more than it is, as it is stored.
pub(crate) fn number(letter: u8, w: &[u8]) -> Option<u64> {
    match letter {
        b'f' => upto(w, 3),
        b't' => upto(w, 7),
        b'p' => upto(w, 15),
        b'n' => upto(w, 31),
        b'b' => upto(w, 255),
        b'w' | b'h' => upto(w, 65535),
        b'c' => or_zero(w, 255),
        b'a' => or_zero(w, 65535),
        b'u' => decimal(w),
        b'd' => above(w, 64, 191),
        b'i' => integer(w),
        b'o' => opcode(w),
        _ => None,
    }
}
