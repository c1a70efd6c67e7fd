// The C call that works the pairs of a bundle out (document 02, Q-5).
ghost use Rattle.std.specs.Prelude.{◌≡◌};
ghost use Rattle.exports.specs.Filling.{packed_filled, FillGives};

use verdicts::Verdict;

fn pack_filled(v: Verdict) -> u64
    ensures { result ≡ packed_filled v }
{
    v.number as u64 + 256 * (v.class as u64) + 65536 * (v.address as u64)
}

// The least pairs that the verifier accepts are written into the lent bundle. 0 or the refusal's number in the low byte, the class in the next (with 0 the class count),
// the address in the two above. With 0 nothing but pair bytes has changed, with a refusal nothing at all.
#[unsafe(no_mangle)]
pub extern "C" fn hveitmar_fill(b: &mut [u8]) -> u64
    ensures { FillGives b.old result b.new }
{
    pack_filled(verdicts::in_numbers(pairs::fill(b)))
}
