// What the steps of a case come to: a bundle and a state put together, steps of the machine, and at the end what is wanted.
use crate::build::Buffer;
use crate::grammar::Step;
use crate::{build, fillings, grammar, report, runs, states, wants, words};
use state::State;
use std::io;
use std::io::Write;
use turns::Stepped;
use verdicts::Verdict;

// What the steps have come to: the bundle's length, the state put together, what the machine's last step gave, if there was one, what working the pairs out gave and of how many bytes.
#[derive(Clone, Copy)]
pub(crate) struct Setting {
    pub length: usize,
    pub state: State,
    pub came: Option<Stepped>,
    pub filled: Option<Verdict>,
    pub left: usize,
}

pub(crate) fn start() -> Setting {
    Setting {
        length: 0,
        state: states::blank(),
        came: None,
        filled: None,
        left: 0,
    }
}

// A step that is none, or not at its place.
pub(crate) fn unsound(
    out: &mut impl Write,
    name: &[u8],
    step: &[u8],
) -> io::Result<Option<Setting>> {
    report::wrong(out, name, b" has no such step: ", step)?;
    Ok(None)
}

// A step that changes the bundle or the state, or one of the machine.
fn act(p: Setting, b: &mut Buffer, r: Step) -> Setting {
    let mut next = p;
    let v = r.numbers;
    let of = r.of;
    match of {
        b'E' => {
            next.length = build::write(b, r);
        }
        b'W' | b'R' | b'I' | b'K' | b'D' => {
            build::write(b, r);
        }
        b'M' | b'F' => {
            next.came = Some(runs::moved(words::first(b, p.length), p.state, of, v));
        }
        b'X' => {
            next.filled = fillings::fill(b, p.length);
            next.left = p.length;
        }
        _ => {
            let s = states::put(p.state, of, v);
            next.state = s;
        }
    }
    next
}

fn is_wanted(of: u8) -> bool {
    (of == b'S') | (of == b'J') | (of == b'Q') | (of == b'G') | (of == b'A') | (of == b'Y')
}

// Nothing where the step is none, or not at its place.
pub(crate) fn step(
    out: &mut impl Write,
    p: Setting,
    b: &mut Buffer,
    s: &[u8],
    name: &[u8],
) -> io::Result<Option<Setting>> {
    match grammar::read(s) {
        Some(r) if !is_wanted(r.of) => Ok(Some(act(p, b, r))),
        _ => unsound(out, name, s),
    }
}

fn met(out: &mut impl Write, p: Setting, whole: &Buffer, r: Step, name: &[u8]) -> io::Result<bool> {
    let b = words::first(whole, p.length);
    let v = r.numbers;
    let of = r.of;
    match of {
        b'S' => wants::verdict(out, name, verdicts::in_numbers(structure::structure(b)), v),
        b'J' => wants::verdict(out, name, verdicts::in_numbers(verifier::verify(b)), v),
        b'Q' => wants::record(out, name, b, v),
        b'A' => wants::holds(out, name, b, p.state, v),
        b'Y' => wants::filled(
            out,
            name,
            p.filled,
            v,
            (p.left == p.length) & fillings::same(whole),
        ),
        _ => wants::stepped(out, name, p.came, p.state, v),
    }
}

// A case ends with what is wanted; whether it is so.
pub(crate) fn ends(
    out: &mut impl Write,
    p: Setting,
    b: &Buffer,
    s: &[u8],
    name: &[u8],
) -> io::Result<bool> {
    match grammar::read(s) {
        Some(r) if is_wanted(r.of) => met(out, p, b, r, name),
        _ => {
            report::wrong(out, name, b" wants no such thing: ", s)?;
            Ok(false)
        }
    }
}
