// Bundles and machine states with the answers that the documents give them, worked out by hand, against the answers of the code.
// The cases are text on standard input; the text's head says how it is read.
#![tactic(auto)]

mod build;
mod fillings;
mod grammar;
mod lines;
mod numbers;
mod report;
mod runs;
mod script;
mod setting;
mod states;
mod wants;
mod words;

use std::io;
use std::io::{Read, Write};

// Room for the text. What fills it may be cut.
type Space = [u8; 524288];

fn run(from: &mut impl Read, out: &mut impl Write, space: &mut Space) -> io::Result<()> {
    let got = input::read(from, space);
    if got.failed.is_some() {
        return report::wrong(out, b"standard input", b" cannot be read", b"");
    }
    if got.count == 524288 {
        return report::wrong(out, b"standard input", b" is too long", b"");
    }
    let tally = lines::run(out, words::first(space, got.count))?;
    report::total(out, tally)
}

fn main(rt: HostRuntime) -> io::Result<()> {
    let mut space = [0u8; 524288];
    run(&mut rt.stdin(), &mut io::writer(&rt), &mut space)
}
