// monitorenter and monitorexit.
ghost use Rattle.std.specs.Prelude.{◌≡◌, false, ◌+◌, ◌*◌, ◌<◌, ◌≤◌, leb};
ghost use Rattle.ground.specs.Bytes.{at};
ghost use Rattle.memory.specs.Words.{object_in};
ghost use Rattle.memory.specs.Frames.{var_in};
ghost use Rattle.turns.specs.Numbers.{answer_number};
ghost use Rattle.runner.specs.Memory.{frame_of, acted};
ghost use Rattle.runner.specs.Locks.{held_by_other, entered_in, left_in};

use crate::running::{Here, Memory};
use instructions::{Addr, Var};
use turns::Answer;

// By the held words: some word has the bit of o, and that of thread i has not. An object has one holder.
fn held_by_other(held: &[u32; 8], i: usize, o: u8) -> bool
    requires { (i < 8) × (o < 32) }
    ensures { result ≡ held_by_other held.now i o }
{
    let all = held[0] | held[1] | held[2] | held[3] | held[4] | held[5] | held[6] | held[7];
    let own = held[i];
    let k = o as u32;
    (all >> k) % 2 != (own >> k) % 2
}

// Taken where another thread holds the object; null throws object 0.
pub(crate) fn enter(m: &mut Memory, here: Here, v: Var, h: Addr) -> Answer
    requires { (here.thread < 8) × (leb 4294967552 (var_in (frame_of m.old.frames here.thread) v.0) ≡ false → (object_in (var_in (frame_of m.old.frames here.thread) v.0) < 32) × (at m.old.counts (here.thread * 32 + object_in (var_in (frame_of m.old.frames here.thread) v.0)) < 65535)) }
    ensures { acted (answer_number result) m.new ≡ entered_in m.old here.thread here.vars v.0 h.0 here.next }
{
    let w = m.frames[here.thread].var(v);
    if memory::words::NULL <= w {
        return m.throw(here, h, memory::words::REF);
    }
    let o = memory::words::object_in(w);
    if held_by_other(&m.held, here.thread, o) {
        return Answer::Taken;
    }
    let k = here.thread * 32 + o as usize;
    let n = m.counts[k] + 1;
    m.counts[k] = n;
    m.held[here.thread] = held::mark(m.held[here.thread], o, n);
    m.frames[here.thread].go(here.next);
    Answer::WentOn
}

pub(crate) fn exit(m: &mut Memory, here: Here, v: Var)
    requires { (here.thread < 8) × (object_in (var_in (frame_of m.old.frames here.thread) v.0) < 32) × (1 ≤ at m.old.counts (here.thread * 32 + object_in (var_in (frame_of m.old.frames here.thread) v.0))) }
    ensures { m.new ≡ left_in m.old here.thread v.0 here.next }
{
    let o = memory::words::object_in(m.frames[here.thread].var(v));
    let k = here.thread * 32 + o as usize;
    let n = m.counts[k] - 1;
    m.counts[k] = n;
    m.held[here.thread] = held::mark(m.held[here.thread], o, n);
    m.frames[here.thread].go(here.next);
}
