// Q-11: usages as the paper writes them, `0`, `L.U`, `^L.U`, `U&U`, `U*U` for its ⊗, and brackets.
// No usage is kept: what is read is weighed on the way.
#![tactic(auto)]

ghost use Rattle.std.specs.Prelude.{◌≡◌, ◌-◌, ◌≤◌, length, drop};
ghost use Rattle.usages.specs.Usage.{either, both};
ghost use Rattle.usage_text.specs.Signs.{star, ampersand};
ghost use Rattle.usage_text.specs.Reading.{head_of, read_prefixed, read_bracket, read_shuffle, read_choice, read_inside, read_text};
ghost use Rattle.usage_text.specs.Weights.{after_lock, after_unlock, either_of, both_of, taken_of, whole_of, Low, rest_of, Onward};
ghost use Rattle.usage_text.specs.Answer.{end_of, answer_of, reading_in, usage_of};

use ground::{back, byte};

// What a text begins with: `0`, `L.`, `^L.`, `(`, or none of these.
#[derive(Clone, Copy)]
enum Head {
    Nought,
    Lock,
    Unlock,
    Open,
    Other,
}

// How far below 0 the count may go, and how far above that it may end: no number is negative.
#[derive(Clone, Copy)]
struct Weight {
    pub dip: u16,
    pub rise: u16,
}

// The usage's dip and end, and whether it is reliable.
#[derive(Clone, Copy)]
pub struct Reading {
    pub dip: u8,
    pub end: i32,
    pub reliable: bool,
}

// Why a text is refused. A text of several faults is refused for the first of them in this order.
#[derive(Clone, Copy)]
pub enum Unread {
    TooLong,
    NotAUsage,
    TooDeep,
    // Its dip or end is outside the entry's range.
    OutOfRange,
}

// ---- weights
fn after_lock(w: Weight) -> Weight
    requires { Low 256 w }
    ensures { result ≡ after_lock w }
{
    Weight {
        dip: w.dip.saturating_sub(1),
        rise: w.rise + 1u16.saturating_sub(w.dip),
    }
}

fn after_unlock(w: Weight) -> Weight
    requires { Low 256 w }
    ensures { result ≡ after_unlock w }
{
    Weight {
        dip: w.dip + 1,
        rise: w.rise,
    }
}

fn either_of(w: Weight, v: Weight) -> Weight
    requires { Low 256 w × Low 256 v }
    ensures { result ≡ either_of w v }
{
    let w_lower = v.dip.saturating_sub(w.dip);
    let v_lower = w.dip.saturating_sub(v.dip);
    Weight {
        dip: w.dip.max(v.dip),
        rise: (w.rise + w_lower).max(v.rise + v_lower),
    }
}

fn both_of(w: Weight, v: Weight) -> Weight
    requires { Low 256 w × Low 256 v }
    ensures { result ≡ both_of w v }
{
    Weight {
        dip: w.dip + v.dip,
        rise: w.rise + v.rise,
    }
}

// ---- reading
fn head_of(s: &[u8]) -> Head
    ensures { result ≡ head_of s.now }
{
    let a = byte(s, 0);
    let b = byte(s, 1);
    let c = byte(s, 2);
    if a == b'0' {
        return Head::Nought;
    }
    if (a == b'L') & (b == b'.') {
        return Head::Lock;
    }
    if (a == b'^') & ((b == b'L') & (c == b'.')) {
        return Head::Unlock;
    }
    if a == b'(' {
        return Head::Open;
    }
    Head::Other
}

// The text behind its first n bytes, no copy; nothing of a shorter text.
fn behind(s: &[u8], n: usize) -> &[u8]
    ensures { result.now ≡ drop n s.now }
{
    let end = s.len();
    if n <= end {
        return &s[n..end];
    }
    &s[end..end]
}

// The last `left` bytes of the text, no copy; all of a shorter text.
fn rest(s: &[u8], left: usize) -> &[u8]
    ensures { result.now ≡ rest_of s.now left }
{
    let start = back(s, left);
    behind(s, start)
}

// Each reader gives how many bytes are left behind the usage, and its weight; or nothing.

// 0 or a bracket, behind prefixes; brackets may be nested `depth` deep.
#[cycle(reading)]
fn read_prefixed(s: &[u8], depth: usize) -> Option<(usize, Weight)>
    requires { length s.now ≤ 256 }
    ensures { result ≡ taken_of (read_prefixed (read_inside depth) s.now) }
{
    match head_of(s) {
        Head::Nought => {
            let r = behind(s, 1);
            Some((r.len(), Weight { dip: 0, rise: 0 }))
        }
        Head::Lock => {
            let r = behind(s, 2);
            let (left, w) = read_prefixed(r, depth)?;
            Some((left, after_lock(w)))
        }
        Head::Unlock => {
            let r = behind(s, 3);
            let (left, w) = read_prefixed(r, depth)?;
            Some((left, after_unlock(w)))
        }
        Head::Open => {
            let r = behind(s, 1);
            read_bracket(r, depth)
        }
        Head::Other => None,
    }
}

// What an open bracket holds, and the closing bracket: one level deeper, where there is one.
#[cycle(reading)]
fn read_bracket(s: &[u8], depth: usize) -> Option<(usize, Weight)>
    requires { length s.now ≤ 256 }
    ensures { result ≡ taken_of (read_bracket (read_inside depth) s.now) }
{
    if depth == 0 {
        return None;
    }
    let (left, w) = read_choice(s, depth - 1)?;
    let r = rest(s, left);
    if byte(r, 0) != b')' {
        return None;
    }
    Some((r.len() - 1, w))
}

// Prefixed usages with `*` between them.
#[cycle(reading)]
fn read_shuffle(s: &[u8], depth: usize) -> Option<(usize, Weight)>
    requires { length s.now ≤ 256 }
    ensures { result ≡ taken_of (read_shuffle (read_inside depth) s.now) }
{
    let (left, w) = read_prefixed(s, depth)?;
    let r = rest(s, left);
    read_shuffle_on(r, w, depth)
}

// Further ones, behind some whose weight is w.
#[cycle(reading)]
fn read_shuffle_on(s: &[u8], w: Weight, depth: usize) -> Option<(usize, Weight)>
    requires { (length s.now ≤ 256) × Low (256 - length s.now) w }
    ensures { Onward star both (read_prefixed (read_inside depth)) s.now w result }
{
    if byte(s, 0) != b'*' {
        return Some((s.len(), w));
    }
    let b = behind(s, 1);
    let (left, v) = read_prefixed(b, depth)?;
    let r = rest(b, left);
    read_shuffle_on(r, both_of(w, v), depth)
}

// Shuffles with `&` between them. With `*` above it is the same, written twice: the four call one another, and a cycle of calls through a closure gets no proof.
#[cycle(reading)]
fn read_choice(s: &[u8], depth: usize) -> Option<(usize, Weight)>
    requires { length s.now ≤ 256 }
    ensures { result ≡ taken_of (read_choice (read_inside depth) s.now) }
{
    let (left, w) = read_shuffle(s, depth)?;
    let r = rest(s, left);
    read_choice_on(r, w, depth)
}

// Further ones, behind some whose weight is w.
#[cycle(reading)]
fn read_choice_on(s: &[u8], w: Weight, depth: usize) -> Option<(usize, Weight)>
    requires { (length s.now ≤ 256) × Low (256 - length s.now) w }
    ensures { Onward ampersand either (read_shuffle (read_inside depth)) s.now w result }
{
    if byte(s, 0) != b'&' {
        return Some((s.len(), w));
    }
    let b = behind(s, 1);
    let (left, v) = read_shuffle(b, depth)?;
    let r = rest(b, left);
    read_choice_on(r, either_of(w, v), depth)
}

// ---- the answer
// The weight of a text that is a usage to its end.
fn read_whole(text: &[u8], depth: usize) -> Option<Weight>
    requires { length text.now ≤ 256 }
    ensures { result ≡ whole_of (read_text depth text.now) }
{
    let (left, w) = read_choice(text, depth)?;
    if left != 0 {
        return None;
    }
    Some(w)
}

fn end_of(w: Weight) -> i32
    ensures { result ≡ end_of w.dip w.rise }
{
    (w.rise as i32) - (w.dip as i32)
}

// No end is below −dip, so with a dip of 63 none is below −63.
fn answer(w: Weight) -> Result<Reading, Unread>
    requires { Low 256 w }
    ensures { reading_in result ≡ answer_of w }
{
    if 63 < w.dip || w.dip + 63 < w.rise {
        return Err(Unread::OutOfRange);
    }
    Ok(Reading {
        dip: w.dip as u8,
        end: end_of(w),
        reliable: (w.dip == 0) & (w.rise == 0),
    })
}

// The text's usage: its dip and end, and whether it is reliable; or why it is refused.
// A text that is no usage with 16 brackets open may be one with more: then it is too deep, else it is no usage at all. 256 bytes have room for 127.
pub fn usage(text: &[u8]) -> Result<Reading, Unread>
    ensures { reading_in result ≡ usage_of text.now }
{
    if 256 < text.len() {
        return Err(Unread::TooLong);
    }
    if let Some(w) = read_whole(text, 16) {
        return answer(w);
    }
    match read_whole(text, 127) {
        Some(_) => Err(Unread::TooDeep),
        None => Err(Unread::NotAUsage),
    }
}
