// getfield and putfield. A null owner throws object 0.
ghost use Rattle.std.specs.Prelude.{◌≡◌, false, ◌+◌, ◌*◌, ◌<◌, leb};
ghost use Rattle.memory.specs.Words.{object_in};
ghost use Rattle.memory.specs.Frames.{top_in, under_in};
ghost use Rattle.turns.specs.Numbers.{answer_number};
ghost use Rattle.runner.specs.Memory.{frame_of, acted};
ghost use Rattle.runner.specs.Fields.{got_in, put_in};

use crate::running::{Here, Memory};
use instructions::Addr;
use turns::Answer;

fn place(o: u8, f: u8) -> usize
    ensures { result ≡ o * 4 + f }
{
    (o as usize) * 4 + (f as usize)
}

pub(crate) fn get(m: &mut Memory, here: Here, f: u8, h: Addr) -> Answer
    requires { (here.thread < 8) × (leb 4294967552 (top_in (frame_of m.old.frames here.thread)) ≡ false → object_in (top_in (frame_of m.old.frames here.thread)) * 4 + f < 128) }
    ensures { acted (answer_number result) m.new ≡ got_in m.old here.thread here.vars f h.0 here.next }
{
    let w = m.frames[here.thread].top();
    if memory::words::NULL <= w {
        return m.throw(here, h, memory::words::REF);
    }
    let k = place(memory::words::object_in(w), f);
    let value = m.fields[k];
    m.frames[here.thread].set_top(value, here.next);
    Answer::WentOn
}

// The value is on top, the owner below it.
pub(crate) fn put(m: &mut Memory, here: Here, f: u8, h: Addr) -> Answer
    requires { (here.thread < 8) × (leb 4294967552 (under_in (frame_of m.old.frames here.thread)) ≡ false → object_in (under_in (frame_of m.old.frames here.thread)) * 4 + f < 128) }
    ensures { acted (answer_number result) m.new ≡ put_in m.old here.thread here.vars f h.0 here.next }
{
    let w = m.frames[here.thread].under();
    if memory::words::NULL <= w {
        return m.throw(here, h, memory::words::REF);
    }
    let k = place(memory::words::object_in(w), f);
    m.fields[k] = m.frames[here.thread].top();
    m.frames[here.thread].drop(2, here.next);
    Answer::WentOn
}
