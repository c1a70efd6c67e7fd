// A running machine as arrays, which its steps change in place, and the state that it stands for, made once, at the end.
ghost use Rattle.std.specs.Prelude.{◌≡◌, ◌<◌};
ghost use Rattle.memory.specs.Tab.{tab};
ghost use Rattle.turns.specs.Numbers.{answer_number};
ghost use Rattle.runner.specs.Memory.{thread_from, slot_from, state_from, acted, threw_in};

use instructions::Addr;
use memory::Frame;
use state::State;
use threads::Thread;
use turns::Answer;
use values::Slot;

// A frame for each thread, and a word for each field place; the rest is the state's own.
#[derive(Drop)]
pub(crate) struct Memory {
    pub(crate) frames: [Frame; 8],
    pub(crate) counts: [u16; 256],
    pub(crate) held: [u32; 8],
    pub(crate) objects: u8,
    pub(crate) classes: [u8; 32],
    pub(crate) fields: [u64; 128],
}

// Where a thread takes its step: its number, how many variables its class has, and the address after its instruction.
#[derive(Clone, Copy)]
pub(crate) struct Here {
    pub(crate) thread: usize,
    pub(crate) vars: u8,
    pub(crate) next: u16,
}

fn threads_from(frames: &[Frame; 8]) -> [Thread; 8]
    ensures { result ≡ tab 8 (thread_from frames.now) }
{
    let mut next = [threads::idle(); 8];
    for i in 0..8 {
        next[i] = frames[i].thread();
    }
    next
}

fn slots_from(fields: &[u64; 128]) -> [Slot; 128]
    ensures { result ≡ tab 128 (slot_from fields.now) }
{
    let mut next = [values::zero_slot(); 128];
    for k in 0..128 {
        next[k] = memory::words::slot_of(fields[k]);
    }
    next
}

impl Memory {
    pub(crate) fn state(&self) -> State
        ensures { result ≡ state_from self.now }
    {
        State {
            threads: threads_from(&self.frames),
            counts: self.counts,
            objects: self.objects,
            classes: self.classes,
            fields: slots_from(&self.fields),
            held: self.held,
        }
    }

    // w is thrown: the thread goes on at its handler, or ends uncaught.
    pub(crate) fn throw(&mut self, here: Here, h: Addr, w: u64) -> Answer
        requires { here.thread < 8 }
        ensures { acted (answer_number result) self.new ≡ threw_in self.old here.thread here.vars h.0 w }
    {
        if self.frames[here.thread].throw(here.vars, h, w) {
            return Answer::Uncaught;
        }
        Answer::WentOn
    }
}
