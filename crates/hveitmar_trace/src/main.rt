// Runs a schedule of steps on a bundle, from a fresh machine or from a given state, and prints each answer and the
// last state, so that a run can be held against another machine's.
#![tactic(auto)]

mod decode;
mod print;

use state::State;
use std::io;
use std::io::Write;
use std::process::ExitCode;

fn follow(out: &mut impl Write, b: &[u8], start: State, schedule: &[u8]) -> io::Result<()> {
    let mut s = start;
    for (i, turn) in schedule.iter().enumerate() {
        let thread = *turn & 15;
        let fails = 128 <= *turn;
        let r = machine::step(b, s, thread, fails);
        print::step_line(out, i + 1, thread, r.answer.number(), fails)?;
        s = r.state;
    }
    print::state_lines(out, s)
}

fn trace(out: &mut impl Write, s: &[u8]) -> io::Result<()> {
    let b = decode::bundle(s);
    let schedule = decode::schedule(s);
    if decode::is_given(s) {
        print::given_line(out)?;
        return follow(out, b, decode::state(s), schedule);
    }
    let r = machine::fresh(b);
    print::fresh_line(out, r.answer.number())?;
    follow(out, b, r.state, schedule)
}

fn print_trace(out: &mut impl Write, s: &[u8]) -> io::Result<()> {
    if !decode::is_input(s) {
        return print::bad_line(out);
    }
    trace(out, s)
}

// The longest input is 2 + 65,535 + 1 + 2,537 + 4,096 bytes: what fills a buffer of one more has too many steps.
fn main(rt: HostRuntime) -> io::Result<ExitCode> {
    let mut space = [0u8; 72172];
    let got = input::read(&mut rt.stdin(), &mut space);
    if let Some(error) = got.failed {
        eprintln!(rt; "standard input: {error}")?;
        return Ok(ExitCode::FAILURE);
    }
    let n = got.count;
    print_trace(&mut io::writer(&rt), &space[..n])?;
    Ok(ExitCode::SUCCESS)
}
