// The form of every step, and a step read by its form. A form is a capital, which tells what the step does, and a letter for each number:
//
//   b up to 255, w up to 65,535, f up to 3, t up to 7, p up to 15, n up to 31, u up to 4,294,967,295, o an opcode or its name, d an end, i an integer of 32 bits;
//   h is w as its two bytes; c and a are b and h that may be left out at the end of a step, and are 0 then;
//   a digit is that number itself, and a capital its own byte; e is an entry, v a value: a word and its numbers, which end the step.
//
// Capitals, with their numbers in order; `build`, `states`, `runs`, `fillings` and `setting` have what each does:
//
//   W bytes: place, how many times, the bytes; E the same, and they end the bundle; R rows: place, V, K, how many;
//   I an instruction of `bench` or `yard`: address, the bytes; K a part of its row: address, which entry, place in the row, the bytes;
//   D the same of the stack: the depth then ends with it;
//   T a thread: number, live, class, address, depth; V variables and P stack places: thread, which, one (1) or all (0), value;
//   N a count, L a held word, O the number of objects, C the class of an object, H a field place: object, field, value;
//   M steps: thread, new fails, how many; F the fresh machine; X the pairs worked out;
//   and what is wanted: S a verdict on the structure, J the verifier's, Q a record, G what the machine gives, A how many objects a thread holds, Y what working the pairs out gives.
use crate::{numbers, words};

// A step as far as it was read: its capital, its numbers and how many there are, and the place after them. The numbers stand in an array, since no part of the program allocates.
#[derive(Clone, Copy)]
pub(crate) struct Step {
    pub of: u8,
    pub numbers: [u32; 16],
    pub count: usize,
    pub at: usize,
}

fn start() -> Step {
    Step {
        of: 0,
        numbers: [0; 16],
        count: 0,
        at: 0,
    }
}

fn pushed(r: Step, n: u64) -> Step {
    let mut next = r;
    let k = r.count;
    if k < 16 {
        next.numbers[k] = (n % 4294967296) as u32;
        next.count = k + 1;
    }
    next
}

// What is left after a word.
fn past(r: Step, w: &[u8]) -> Step {
    let mut next = r;
    next.at = std::num::wrapping_add_usize(std::num::wrapping_add_usize(r.at, w.len()), 1);
    next
}

// The next word as a number, or as the two bytes of one.
fn by_word(r: Step, s: &[u8], letter: u8) -> Option<Step> {
    let w = words::piece(s, r.at, b' ');
    let n = numbers::number(letter, w)?;
    let next = past(r, w);
    if (letter == b'h') | (letter == b'a') {
        return Some(pushed(pushed(next, n / 256), n % 256));
    }
    Some(pushed(next, n))
}

fn by_letter(r: Step, s: &[u8], letter: u8) -> Option<Step> {
    match letter {
        b'0'..=b'9' => Some(pushed(r, (letter - b'0') as u64)),
        b'A'..=b'Z' => Some(pushed(r, letter as u64)),
        b'e' | b'v' => Some(r),
        _ => by_word(r, s, letter),
    }
}

fn by_form(r: Step, s: &[u8], form: &[u8]) -> Option<Step> {
    let mut next = r;
    for letter in form {
        next = by_letter(next, s, *letter)?;
    }
    Some(next)
}

// The form of a word in a table of lines, each a word, a space and its form, if the table has the word.
fn form_of<'a>(table: &'a [u8], w: &[u8]) -> Option<&'a [u8]> {
    let mut at = 0;
    while at < table.len() {
        let end = words::upto(table, at, b'\n');
        let form = words::after_word(&table[at..end], w);
        if 0 < form.len() {
            return Some(form);
        }
        at = end + 1;
    }
    None
}

fn by_table(r: Step, s: &[u8], table: &[u8]) -> Option<Step> {
    let w = words::piece(s, r.at, b' ');
    by_form(past(r, w), s, form_of(table, w)?)
}

// An entry is four bytes; a value is 0 and an integer, 1 and an object, or 2 and 0: null.
fn by_last(r: Step, s: &[u8], letter: u8) -> Option<Step> {
    match letter {
        b'e' => by_table(r, s, b"int 1000\ntop 2000\nref 3bbd\nnull 4b00\nraw bbbb\n"),
        b'v' => by_table(r, s, b"int 0i\nref 1b\nnull 20\n"),
        _ => Some(r),
    }
}

// A step's form says what all of it is.
fn by_whole(s: &[u8], w: &[u8], form: &[u8]) -> Option<Step> {
    let first = by_form(past(start(), w), s, words::from(form, 1))?;
    let mut r = by_last(first, s, ground::byte(form, ground::back(form, 1)))?;
    r.of = ground::byte(form, 0);
    if s.len() < r.at { Some(r) } else { None }
}

// A step, if all of it is as its form says.
pub(crate) fn read(s: &[u8]) -> Option<Step> {
    let w = words::piece(s, 0, b' ');
    let form = form_of(
        b"byte Ww1b
word Ww1h
code Ww1oca
codes Wwwoca
entry Ww1hbbbbh
quad Ww1e
quads Wwwe
bytes Ewwb
trailer Ew1hb0hLK
length Ew
rows Rwbbw
at Iboca
var Kbp0e
stack Dbp9e
depth Kb08b
live Tt1bwb
ended Tt0bwb
local Vtp1v
locals Vt00v
place Ptp1v
places Pt00v
count Ntnw
held Ltu
objects Ob
class Cnb
field Hnfv
step Mb01
fails Mb11
steps Mb0w
fresh F
fill X
verdict Sbbw
judge Jbbwb
record Qbwb
gives Gb
holds Abbb
filled Ybbw
",
        w,
    )?;
    by_whole(s, w, form)
}
