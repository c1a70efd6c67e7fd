// The C call that takes a method's instructions from a class file (document 02, Q-9).
ghost use Rattle.std.specs.Prelude.{◌≡◌};
ghost use Rattle.classfile.specs.Taking.{taken_in};
ghost use Rattle.exports.specs.Methods.{packed_taken, TakeGives};

use classfile::Untaken;

fn pack_taken(taken: Result<u32, Untaken>) -> u64
    ensures { result ≡ packed_taken (taken_in taken) }
{
    let (number, offset) = match taken {
        Ok(count) => (0, count),
        Err(Untaken::Cut) => (30, 0),
        Err(Untaken::Unknown(at)) => (31, at),
        Err(Untaken::Stray(at)) => (32, at),
        Err(Untaken::Long(at)) => (33, at),
        Err(Untaken::Room(at)) => (34, at),
    };
    number + 4294967296 * (offset as u64)
}

// The instructions of a Code attribute, written into the lent buffer: 0 in the low byte, and their number in the upper half; or a refusal, 30 to 34,
// with its offset in the code in the upper half, and the buffer as it came. The list of classes has two bytes a constant-pool index.
#[unsafe(no_mangle)]
pub extern "C" fn hveitmar_take(attribute: &[u8], classes: &[u8], out: &mut [u8]) -> u64
    ensures { TakeGives attribute.now classes.now out.old result out.new }
{
    pack_taken(classfile::take(attribute, classes, out))
}
