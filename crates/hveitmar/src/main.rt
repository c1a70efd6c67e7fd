// The verdict on a bundle that standard input holds, as one line on standard output.
#![tactic(auto)]

ghost use Rattle.std.specs.Prelude.{Some};
ghost use Rattle.verdicts.specs.Text.{refusal_text};

use std::process::ExitCode;
use std::{fmt, io};
use verdicts::Refusal;

// A refusal as the line says it.
#[derive(Clone, Copy)]
struct Refused(Refusal);

// Why is told of a 9 only.
impl fmt::Display for Refused {
    ghost output = { λ x. Some (refusal_text x.0) };

    fn fmt<W: fmt::Write>(&self, f: &mut fmt::Formatter<W>) -> fmt::Result {
        let v = self.0.numbers();
        write!(
            f,
            "refused {} class {} address {}",
            v.number, v.class, v.address
        )?;
        match self.0 {
            Refusal::Rule(_, _, _) => write!(f, " why {}", v.why),
            _ => Ok(()),
        }
    }
}

fn print_verdict(rt: &impl Print, judged: Result<u8, Refusal>) -> io::Result<()> {
    match judged {
        Ok(classes) => println!(rt; "accepted classes {classes}"),
        Err(refusal) => println!(rt; "{}", Refused(refusal)),
    }
}

// The buffer is one byte longer than any bundle: input that fills it draws verdict 1.
fn main(rt: HostRuntime) -> io::Result<ExitCode> {
    let mut space = [0u8; 65536];
    let got = input::read(&mut rt.stdin(), &mut space);
    if let Some(error) = got.failed {
        eprintln!(rt; "standard input: {error}")?;
        return Ok(ExitCode::FAILURE);
    }
    let n = got.count;
    print_verdict(&rt, verifier::verify(&space[..n]))?;
    Ok(ExitCode::SUCCESS)
}
