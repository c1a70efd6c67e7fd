// The lines that the program writes.
use std::io;
use std::io::Write;

// How many cases were run, and how many of them were wrong.
#[derive(Clone, Copy)]
pub(crate) struct Tally {
    pub cases: u64,
    pub wrong: u64,
}

pub(crate) fn right(out: &mut impl Write, name: &[u8]) -> io::Result<()> {
    out.write_all(b"ok ")?;
    out.write_all(name)?;
    out.write_all(b"\n")
}

// A case, or a part of the text; what is wrong with it, and where.
pub(crate) fn wrong(out: &mut impl Write, name: &[u8], what: &[u8], part: &[u8]) -> io::Result<()> {
    out.write_all(b"WRONG ")?;
    out.write_all(name)?;
    out.write_all(what)?;
    out.write_all(part)?;
    out.write_all(b"\n")
}

fn numbers(out: &mut impl Write, a: [u32; 4]) -> io::Result<()> {
    write!(out, " {} {} {} {}", a[0], a[1], a[2], a[3])
}

pub(crate) fn other(
    out: &mut impl Write,
    name: &[u8],
    got: [u32; 4],
    want: [u32; 4],
) -> io::Result<()> {
    out.write_all(b"WRONG ")?;
    out.write_all(name)?;
    out.write_all(b" got")?;
    numbers(out, got)?;
    out.write_all(b" wanted")?;
    numbers(out, want)?;
    out.write_all(b"\n")
}

pub(crate) fn total(out: &mut impl Write, t: Tally) -> io::Result<()> {
    writeln!(out, "{} cases, {} wrong", t.cases, t.wrong)
}
