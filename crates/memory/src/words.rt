// What a word stands for, and what a whole thread does.
ghost use Rattle.std.specs.Prelude.{◌≡◌};
ghost use Rattle.memory.specs.Tab.{tab};
ghost use Rattle.memory.specs.Words.{slot_of, object_in};
ghost use Rattle.memory.specs.Frames.{slot_in, thread_in};

use crate::Frame;
use instructions::Addr;
use threads::Thread;
use values::Slot;

pub const REF: u64 = 4294967296;

pub const NULL: u64 = 4294967552;

// The object of a word that refers.
pub fn object_in(w: u64) -> u8
    ensures { result ≡ object_in w }
{
    (w % 256) as u8
}

pub fn slot_of(w: u64) -> Slot
    ensures { result ≡ slot_of w }
{
    if w < REF {
        return values::int_slot(w as u32);
    }
    if w < NULL {
        return values::ref_slot((w - REF) as u8);
    }
    values::null_slot()
}

fn slots(words: &[u64; 16]) -> [Slot; 16]
    ensures { result ≡ tab 16 (slot_in words.now) }
{
    let mut next = [values::zero_slot(); 16];
    for v in 0..16 {
        next[v] = slot_of(words[v]);
    }
    next
}

impl Frame {
    pub fn thread(&self) -> Thread
        ensures { result ≡ thread_in self.now }
    {
        Thread {
            live: self.live(),
            class: self.class(),
            at: Addr(self.address()),
            depth: (self.depth % 256) as u8,
            vars: slots(&self.vars),
            stack: slots(&self.stack),
        }
    }
}
