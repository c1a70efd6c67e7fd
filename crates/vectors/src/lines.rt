// The lines of the text: comments, definitions of bundles, what the cases after it are given, and cases.
use crate::report::Tally;
use crate::{report, script, words};
use std::io;
use std::io::Write;

fn counted(t: Tally, right: bool) -> Tally {
    Tally {
        cases: std::num::wrapping_add_u64(t.cases, 1),
        wrong: std::num::wrapping_add_u64(t.wrong, !right as u64),
    }
}

// What follows the first colon and a space.
fn name_of<'a>(line: &'a [u8]) -> &'a [u8] {
    let rest = words::from(line, words::piece(line, 0, b':').len());
    words::after_word(rest, b":")
}

// A case, after the line of what it is given.
fn case(
    out: &mut impl Write,
    t: Tally,
    text: &[u8],
    given_line: &[u8],
    line: &[u8],
) -> io::Result<Tally> {
    let name = name_of(line);
    if name.len() == 0 {
        report::wrong(out, line, b" has no name", b"")?;
        return Ok(counted(t, false));
    }
    let common = words::after_word(given_line, b"given");
    let right = script::holds(out, text, common, words::piece(line, 0, b':'), name)?;
    if right {
        report::right(out, name)?;
    }
    Ok(counted(t, right))
}

// What a line is to the cases: what those after it are given, one of them, or neither.
#[derive(Clone, Copy)]
enum Line {
    Given,
    Case,
    Aside,
}

fn kind(line: &[u8]) -> Line {
    if line.is_empty() {
        return Line::Aside;
    }
    match words::place_in(b"given define #", words::piece(line, 0, b' ')) {
        Some(1) => Line::Given,
        Some(_) => Line::Aside,
        None => Line::Case,
    }
}

fn cases_of(out: &mut impl Write, text: &[u8]) -> io::Result<Tally> {
    let mut t = Tally { cases: 0, wrong: 0 };
    let mut last = 0;
    let mut at = 0;
    while at < text.len() {
        let end = words::upto(text, at, b'\n');
        match kind(&text[at..end]) {
            Line::Given => last = at,
            Line::Case => {
                t = case(
                    out,
                    t,
                    text,
                    words::piece(text, last, b'\n'),
                    &text[at..end],
                )?;
            }
            Line::Aside => {}
        }
        at = end + 1;
    }
    Ok(t)
}

// All cases of a text, which is whole if it ends with a line's end.
pub(crate) fn run(out: &mut impl Write, text: &[u8]) -> io::Result<Tally> {
    let t = cases_of(out, text)?;
    if ground::byte(text, ground::back(text, 1)) == b'\n' {
        return Ok(t);
    }
    report::wrong(out, b"the text", b" ends within a line", b"")?;
    Ok(counted(t, false))
}
