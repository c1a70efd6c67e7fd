// What a case wants, compared with what the code gives; where they differ, a line says so.
use crate::{report, states};
use state::State;
use std::io;
use std::io::Write;
use turns::Stepped;
use verdicts::Verdict;

fn is(out: &mut impl Write, name: &[u8], got: [u32; 4], want: [u32; 4]) -> io::Result<bool> {
    if got == want {
        return Ok(true);
    }
    report::other(out, name, got, want)?;
    Ok(false)
}

// Number, class, address, why; of a verdict on the structure why is left out, and 0.
pub(crate) fn verdict(
    out: &mut impl Write,
    name: &[u8],
    got: Verdict,
    v: [u32; 16],
) -> io::Result<bool> {
    is(
        out,
        name,
        [
            got.number as u32,
            got.class as u32,
            got.address as u32,
            got.why as u32,
        ],
        [v[0], v[1], v[2], v[3]],
    )
}

// A record's length. None is longer than 65,535 bytes.
fn short(n: usize) -> u32 {
    if n <= 65535 {
        return n as u32;
    }
    65536
}

// The class, the length, and the first byte, 0 where there is none.
pub(crate) fn record(
    out: &mut impl Write,
    name: &[u8],
    b: &[u8],
    v: [u32; 16],
) -> io::Result<bool> {
    let r = structure::record(b, (v[0] % 256) as u8);
    is(
        out,
        name,
        [short(r.len()), ground::byte(r, 0) as u32, 0, 0],
        [v[1], v[2], 0, 0],
    )
}

// The thread, the answer to the question how many objects it holds, and the number.
pub(crate) fn holds(
    out: &mut impl Write,
    name: &[u8],
    b: &[u8],
    s: State,
    v: [u32; 16],
) -> io::Result<bool> {
    let got = match holding::held(b, s, (v[0] % 256) as u8) {
        Ok(number) => [0, number as u32, 0, 0],
        Err(answer) => [answer.number() as u32, 0, 0, 0],
    };
    is(out, name, got, [v[1], v[2], 0, 0])
}

// The answer, and the state in every place. With no step there is the answer 255, which no step gives.
pub(crate) fn stepped(
    out: &mut impl Write,
    name: &[u8],
    came: Option<Stepped>,
    s: State,
    v: [u32; 16],
) -> io::Result<bool> {
    let (answer, state) = match came {
        Some(got) => (got.answer.number(), got.state),
        None => (255, states::blank()),
    };
    if !is(out, name, [answer as u32, 0, 0, 0], [v[0], 0, 0, 0])? {
        return Ok(false);
    }
    if state == s {
        return Ok(true);
    }
    report::wrong(out, name, b" gives another state", b"")?;
    Ok(false)
}

// The verdict, and whether the bundle is left as the one put together. Where no pairs were worked out there is the number 255, which no verdict has.
pub(crate) fn filled(
    out: &mut impl Write,
    name: &[u8],
    got: Option<Verdict>,
    v: [u32; 16],
    same: bool,
) -> io::Result<bool> {
    let none = Verdict {
        number: 255,
        class: 0,
        address: 0,
        why: 0,
    };
    if !verdict(out, name, got.unwrap_or(none), v)? {
        return Ok(false);
    }
    if same {
        return Ok(true);
    }
    report::wrong(out, name, b" leaves another bundle", b"")?;
    Ok(false)
}
