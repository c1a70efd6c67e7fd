// The steps of a case in their order: what it is given, and its own, of which the last says what is wanted.
ghost use Rattle.std.specs.Prelude.{◌+◌, ◌≤◌, length};

use crate::build::Buffer;
use crate::setting::Setting;
use crate::{setting, words};
use std::io;
use std::io::Write;

// A place, or the one after it where a space stands there.
fn after_space(s: &[u8], at: usize) -> usize
    requires { at ≤ length s.now + 1 }
    ensures { (at ≤ result) × (result ≤ at + 1) }
{
    if ground::byte(s, at) == b' ' {
        return at + 1;
    }
    at
}

// Nothing once a step is none, or not at its place.
fn steps(
    out: &mut impl Write,
    p: Option<Setting>,
    b: &mut Buffer,
    s: &[u8],
    name: &[u8],
) -> io::Result<Option<Setting>> {
    let mut next = p;
    let mut at = 0;
    while at < s.len() {
        let Some(now) = next else {
            return Ok(None);
        };
        let end = words::upto(s, at, b';');
        next = setting::step(out, now, b, &s[at..end], name)?;
        at = after_space(s, end + 1);
    }
    Ok(next)
}

// Where the last step begins.
fn last_step(s: &[u8]) -> usize {
    let mut last = 0;
    let mut at = 0;
    while at < s.len() {
        last = at;
        let end = words::upto(s, at, b';');
        at = after_space(s, end + 1);
    }
    last
}

// What follows the first step.
fn after_first<'a>(s: &'a [u8]) -> &'a [u8] {
    let one = words::piece(s, 0, b';');
    words::from(s, std::num::wrapping_add_usize(one.len(), 2))
}

fn defines(line: &[u8], name: &[u8]) -> bool {
    let one = words::piece(line, 0, b';');
    words::after_word(one, b"define") == name
}

// The steps that define a bundle of that name, if a line of the text does.
fn definition<'a>(text: &'a [u8], name: &[u8]) -> Option<&'a [u8]> {
    let mut at = 0;
    while at < text.len() {
        let end = words::upto(text, at, b'\n');
        if defines(&text[at..end], name) {
            return Some(after_first(&text[at..end]));
        }
        at = end + 1;
    }
    None
}

// The steps of a line, of which the first may name a bundle.
fn laid(
    out: &mut impl Write,
    p: Option<Setting>,
    b: &mut Buffer,
    text: &[u8],
    s: &[u8],
    name: &[u8],
) -> io::Result<Option<Setting>> {
    let bundle = words::after_word(words::piece(s, 0, b';'), b"bundle");
    if bundle.is_empty() {
        return steps(out, p, b, s, name);
    }
    let known = match definition(text, bundle) {
        Some(known) if !known.is_empty() => known,
        _ => return setting::unsound(out, name, bundle),
    };
    let next = steps(out, p, b, known, name)?;
    steps(out, next, b, after_first(s), name)
}

// Whether all is as a case wants it.
pub(crate) fn holds(
    out: &mut impl Write,
    text: &[u8],
    common: &[u8],
    own: &[u8],
    name: &[u8],
) -> io::Result<bool> {
    let mut b = [0u8; 131072];
    let last = last_step(own);
    let p = laid(out, Some(setting::start()), &mut b, text, common, name)?;
    match laid(out, p, &mut b, text, words::first(own, last), name)? {
        Some(p) => setting::ends(out, p, &b, words::from(own, last), name),
        None => Ok(false),
    }
}
