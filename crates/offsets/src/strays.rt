// Refusal 32: a target or a handler that is not at the first byte of a taken instruction, or at a nop with nothing written after it.
ghost use Rattle.std.specs.Prelude.{◌≡◌, length};
ghost use Rattle.ground.specs.Bounded.{Told};
ghost use Rattle.offsets.specs.Offsets.{total};
ghost use Rattle.offsets.specs.Handlers.{entries};
ghost use Rattle.offsets.specs.Targets.{lands, branch_ok, first_stray, first_stray_entry};
ghost use Rattle.offsets.specs.Index.{Indexed};

use crate::places::{self, FIRST, PLACES, Place};
use java::Java;

fn lands(code: &[u8], all: usize, index: &[Place; PLACES], t: usize) -> bool
    requires { (all ≡ total code.now) × Indexed code.now index.now }
    ensures { result ≡ lands code.now t }
{
    if code.len() <= t {
        return false;
    }
    let x = places::seek(code, index, t);
    (x.at == t) & (x.count < all)
}

fn branch_ok(code: &[u8], all: usize, index: &[Place; PLACES], p: usize, j: Java) -> bool
    requires { (all ≡ total code.now) × Indexed code.now index.now }
    ensures { result ≡ branch_ok code.now p j }
{
    match j {
        Java::Ifne(d) => lands(code, all, index, crate::target(code, p, d)),
        _ => true,
    }
}

// The index is kept ahead of the search by more than a branch can reach.
pub(crate) fn stray_by(code: &[u8], all: usize, index: &mut [Place; PLACES]) -> Option<usize>
    requires { (all ≡ total code.now) × Indexed code.now index.old }
    ensures { Told (length code.now) (first_stray code.now) result }
{
    let mut ahead = FIRST;
    for x in java::walk(code) {
        let goal = places::window_end(code, x.at);
        ahead = places::reach(code, index, ahead, goal);
        if !branch_ok(code, all, index, x.at, x.java) {
            return Some(x.at);
        }
    }
    None
}

pub(crate) fn stray_entry_by(
    code: &[u8],
    all: usize,
    index: &[Place; PLACES],
    table: &[u8],
) -> Option<usize>
    requires { (all ≡ total code.now) × Indexed code.now index.now }
    ensures { Told (entries table.now) (first_stray_entry code.now table.now) result }
{
    for i in 0..table.len() / 8 {
        let t = crate::handler_at(table, i) as usize;
        if !lands(code, all, index, t) {
            return Some(i);
        }
    }
    None
}
