// Document 02, Q-9: a method's instructions, taken from the Code attribute of a class file.
#![tactic(auto)]

mod attribute;
mod rows;

ghost use Rattle.std.specs.Prelude.{◌≡◌, ◌<◌, length};
ghost use Rattle.ground.specs.Bounded.{Told};
ghost use Rattle.offsets.specs.Offsets.{total};
ghost use Rattle.offsets.specs.Offenders.{first_past};
ghost use Rattle.classfile.specs.Taking.{taken_in, judged, taken_of, out_of};

// Why nothing is taken, with the first offender's offset in the code.
#[derive(Clone, Copy)]
pub enum Untaken {
    // The attribute ends too early, or has no code.
    Cut,
    Unknown(u32),
    Stray(u32),
    // More than 256 instructions.
    Long(u32),
    // The buffer is too short.
    Room(u32),
}

// The first instruction past the limit. The code, which writes `all`, is read for it only where there is one.
fn past(code: &[u8], all: usize, limit: usize) -> Option<usize>
    requires { all ≡ total code.now }
    ensures { Told (length code.now) (first_past code.now limit) result }
{
    if all <= limit {
        return None;
    }
    offsets::first_past(code, limit)
}

fn judge(classes: &[u8], code: &[u8], table: &[u8], room: usize) -> Result<u32, Untaken>
    requires { length code.now < 4294967296 }
    ensures { taken_in result ≡ judged classes.now code.now table.now room }
{
    if let Some(at) = offsets::first_unknown(classes, code) {
        return Err(Untaken::Unknown(at as u32));
    }
    if let Some(at) = offsets::first_stray(code) {
        return Err(Untaken::Stray(at as u32));
    }
    if let Some(i) = offsets::first_stray_entry(code, table) {
        return Err(Untaken::Stray(offsets::handler_at(table, i) as u32));
    }
    let all = offsets::total(code);
    if let Some(at) = past(code, all, 256) {
        return Err(Untaken::Long(at as u32));
    }
    if let Some(at) = past(code, all, room / 4) {
        return Err(Untaken::Room(at as u32));
    }
    Ok(all as u32)
}

// The instructions of the Code attribute, written into the lent buffer; or a refusal, and the buffer as it came.
pub fn take(attribute: &[u8], classes: &[u8], out: &mut [u8]) -> Result<u32, Untaken>
    ensures value { taken_in result ≡ taken_of attribute.now classes.now (length out.old) }
    ensures out_after { out.new ≡ out_of attribute.now classes.now out.old }
{
    if !attribute::whole(attribute) {
        return Err(Untaken::Cut);
    }
    let code = attribute::code_of(attribute);
    let table = attribute::table_of(attribute);
    let count = judge(classes, code, table, out.len())?;
    rows::write(classes, code, table, out);
    Ok(count)
}
