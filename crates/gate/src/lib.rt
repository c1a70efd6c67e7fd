// Document 02, Q-12: the weaver's gate: what is given is laid out as a bundle, its pairs are filled, and what is accepted is written.
#![tactic(auto)]

ghost use Rattle.std.specs.Prelude.{◌≡◌, ◌≤◌, length};
ghost use Rattle.laying.specs.Given.{given, given_of};
ghost use Rattle.gate.specs.Gate.{packed, Gate, Gives};
ghost use Rattle.gate.specs.Steps.{verdict_in, written_in};

use laying::Parts;
use verdicts::{Refusal, Verdict};

fn pack(v: Verdict, n: usize) -> u64
    requires { n ≤ 65535 }
    ensures { result ≡ packed v n }
{
    v.number as u64 + 256 * (v.class as u64) + 65536 * (v.address as u64) + 4294967296 * (n as u64)
}

// The class count, and how many bytes are written; b is lent to work in, and every refusal leaves the output as it came.
fn gate_in(parts: &Parts, b: &mut [u8], out: &mut [u8]) -> Result<(u8, usize), Refusal>
    requires { length b.old ≡ 65536 }
    ensures gate { Gate (given_of parts.now) out.old (verdict_in result) (written_in result) out.new }
    ensures short { written_in result ≤ 65535 }
{
    let n = laying::lay(parts, b)?;
    let classes = pairs::fill(&mut b[..n])?;
    if !laying::put(&b[..n], out) {
        return Err(Refusal::Room);
    }
    Ok((classes, n))
}

// The verdict's number in the low byte, the class in the next, the address in the two above, the written length in the upper half (0 on a refusal).
// On success the finished bundle stands in the first bytes of `out`, which overlaps none of the other slices; a refusal writes nothing.
pub fn hveitmar_gate(
    classes: u32,
    exception: u32,
    directory: &[u8],
    descriptors: &[u8],
    instructions: &[u8],
    kinds: &[u8],
    depths: &[u8],
    out: &mut [u8],
) -> u64
    ensures { Gives (given classes exception directory.now descriptors.now instructions.now kinds.now depths.now) out.old result out.new }
{
    let parts = Parts {
        classes,
        exception,
        directory,
        descriptors,
        instructions,
        kinds,
        depths,
    };
    let mut b = [0u8; 65536];
    match gate_in(&parts, &mut b, out) {
        Ok((count, n)) => pack(verdicts::in_numbers(Ok(count)), n),
        Err(refusal) => pack(refusal.numbers(), 0),
    }
}
