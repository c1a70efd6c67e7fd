// The C call on a usage's text.
ghost use Rattle.std.specs.Prelude.{◌≡◌, ◌≤◌};
ghost use Rattle.usage_text.specs.Answer.{reading_in, unread_number, usage_of};
ghost use Rattle.exports.specs.Packing.{end_byte, flag, packed_usage, InByte};

use usage_text::{Reading, Unread};

fn end_byte(end: i32) -> u64
    requires { InByte end }
    ensures { (result ≡ end_byte end) × (result ≤ 127) }
{
    (end + 64) as u64
}

fn flag(b: bool) -> u64
    ensures { (result ≡ flag b) × (result ≤ 1) }
{
    if b { 1 } else { 0 }
}

fn unread_number(e: Unread) -> u64
    ensures { (result ≡ unread_number e) × (result ≤ 43) }
{
    match e {
        Unread::TooLong => 40,
        Unread::NotAUsage => 41,
        Unread::TooDeep => 42,
        Unread::OutOfRange => 43,
    }
}

// A refusal's dip is 0, its end too, and it is not reliable.
fn pack_usage(r: Result<Reading, Unread>) -> u64
    requires { InByte (reading_in r).end }
    ensures { result ≡ packed_usage (reading_in r) }
{
    match r {
        Ok(reading) => {
            let end = end_byte(reading.end);
            let reliable = flag(reading.reliable);
            256 * (reading.dip as u64) + 65536 * end + 16777216 * reliable
        }
        Err(e) => unread_number(e) + 65536 * end_byte(0),
    }
}

// A usage's numbers: the refusal's number or 0 in the low byte, the dip in the next, the end in the third, with 64 added as in an entry,
// and 1 in the fourth where the usage is reliable.
#[unsafe(no_mangle)]
pub extern "C" fn hveitmar_usage(text: &[u8]) -> u64
    ensures { result ≡ packed_usage (usage_of text.now) }
{
    pack_usage(usage_text::usage(text))
}
