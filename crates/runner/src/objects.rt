// One object more, and new.
ghost use Rattle.std.specs.Prelude.{◌≡◌, ◌<◌};
ghost use Rattle.turns.specs.Numbers.{answer_number};
ghost use Rattle.runner.specs.Memory.{acted};
ghost use Rattle.runner.specs.Objects.{added_in, new_in};

use crate::running::{Here, Memory};
use instructions::Addr;
use turns::Answer;

// The next object number, an object of class c, and what its fields hold at first.
pub(crate) fn add(m: &mut Memory, c: u8, first: &[u64; 4])
    requires { m.old.objects < 32 }
    ensures { m.new ≡ added_in m.old c first.now }
{
    let k = m.objects as usize;
    m.classes[k] = c;
    m.fields[k * 4] = first[0];
    m.fields[k * 4 + 1] = first[1];
    m.fields[k * 4 + 2] = first[2];
    m.fields[k * 4 + 3] = first[3];
    m.objects += 1;
}

// A failed new throws object 0.
pub(crate) fn new(
    m: &mut Memory,
    here: Here,
    fails: bool,
    c: u8,
    first: &[u64; 4],
    h: Addr,
) -> Answer
    requires { here.thread < 8 }
    ensures { acted (answer_number result) m.new ≡ new_in m.old here.thread here.vars fails c first.now h.0 here.next }
{
    if fails || 32 <= m.objects {
        return m.throw(here, h, memory::words::REF);
    }
    let w = memory::words::REF + m.objects as u64;
    m.frames[here.thread].push(w, here.next);
    add(m, c, first);
    Answer::WentOn
}
