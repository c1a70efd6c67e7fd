// The weaver's gate for C: its one call, under its C name.
#![tactic(auto)]

ghost use Rattle.laying.specs.Given.{given};
ghost use Rattle.gate.specs.Gate.{Gives};

// The verdict's number in the low byte, the class in the next, the address in the two above, the written length in the upper half (0 on a refusal).
// On success the finished bundle stands in the first bytes of `out`, which overlaps none of the other slices; a refusal writes nothing.
#[unsafe(no_mangle)]
pub extern "C" fn hveitmar_gate(
    classes: u32,
    exception: u32,
    directory: &[u8],
    descriptors: &[u8],
    instructions: &[u8],
    kinds: &[u8],
    depths: &[u8],
    out: &mut [u8],
) -> u64
    ensures { Gives (given classes exception directory.now descriptors.now instructions.now kinds.now depths.now) out.old result out.new }
{
    gate::hveitmar_gate(
        classes,
        exception,
        directory,
        descriptors,
        instructions,
        kinds,
        depths,
        out,
    )
}
