// Document 02, Q-9: the code read from its first byte on: addresses, targets and handlers, and the offenders that refusals 31 to 34 name.
#![tactic(auto)]

mod places;
mod strays;

ghost use Rattle.std.specs.Prelude.{◌≡◌, ◌<◌, length};
ghost use Rattle.ground.specs.Bounded.{Told};
ghost use Rattle.offsets.specs.Offsets.{total};
ghost use Rattle.offsets.specs.Handlers.{entries, handler_of, covers, covered_by};
ghost use Rattle.offsets.specs.Targets.{target_of, first_stray, first_stray_entry};
ghost use Rattle.offsets.specs.Offenders.{first_unknown, first_past};

// How many instructions are written.
pub fn total(code: &[u8]) -> usize
    ensures { result ≡ total code.now }
{
    let mut k = 0;
    for x in java::walk(code) {
        k += java::gives(x.java);
    }
    k
}

// The offset that a branch at p goes to.
pub fn target(code: &[u8], p: usize, d: u16) -> usize
    ensures { result ≡ target_of code.now p d }
{
    if code.len() <= p {
        return code.len();
    }
    let e = d as usize;
    if e < 32768 {
        return p + e;
    }
    if 65536 <= p + e {
        return p + e - 65536;
    }
    code.len()
}

// The offset of entry i's handler.
pub fn handler_at(table: &[u8], i: usize) -> u16
    ensures { result ≡ handler_of table.now i }
{
    if table.len() / 8 <= i {
        return 0;
    }
    ground::word(table, 8 * i + 4)
}

fn covers(table: &[u8], offset: usize, i: usize) -> bool
    requires { i < entries table.now }
    ensures { result ≡ covers table.now offset i }
{
    (ground::word(table, 8 * i) as usize <= offset)
        & (offset < ground::word(table, 8 * i + 2) as usize)
}

// The first entry that covers the offset.
pub fn covered_by(table: &[u8], offset: usize) -> Option<usize>
    ensures { Told (entries table.now) (covered_by table.now offset) result }
{
    for i in 0..table.len() / 8 {
        if covers(table, offset, i) {
            return Some(i);
        }
    }
    None
}

// 31: the first instruction that is not taken.
pub fn first_unknown(classes: &[u8], code: &[u8]) -> Option<usize>
    ensures { Told (length code.now) (first_unknown classes.now code.now) result }
{
    for x in java::walk(code) {
        if !java::known(classes, x.java) {
            return Some(x.at);
        }
    }
    None
}

// 32: the first ifne whose target may not be one.
pub fn first_stray(code: &[u8]) -> Option<usize>
    ensures { Told (length code.now) (first_stray code.now) result }
{
    let all = total(code);
    let mut index = [places::FIRST; places::PLACES];
    strays::stray_by(code, all, &mut index)
}

// 32: the first entry of the table whose handler may not be one.
pub fn first_stray_entry(code: &[u8], table: &[u8]) -> Option<usize>
    ensures { Told (entries table.now) (first_stray_entry code.now table.now) result }
{
    let all = total(code);
    let mut index = [places::FIRST; places::PLACES];
    let goal = places::window_end(code, 0);
    places::reach(code, &mut index, places::FIRST, goal);
    strays::stray_entry_by(code, all, &index, table)
}

// 33 and 34: the first instruction of which not all that is written stays within the limit.
pub fn first_past(code: &[u8], limit: usize) -> Option<usize>
    ensures { Told (length code.now) (first_past code.now limit) result }
{
    let mut k = 0;
    for x in java::walk(code) {
        k += java::gives(x.java);
        if limit < k {
            return Some(x.at);
        }
    }
    None
}
