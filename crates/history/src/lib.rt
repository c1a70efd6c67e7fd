// What a step meets: the instruction and the object that an event of the history names.
#![tactic(auto)]

ghost use Rattle.std.specs.Prelude.{◌≡◌};
ghost use Rattle.history.specs.Met.{object_answered, met_in};
ghost use Rattle.history.specs.Meeting.{object_in, object_met, met_of};

use instructions::{Code, Var};
use state::State;
use threads::Thread;
use values::{Slot, Value};

// The instruction as its four bytes; four zeros are none.
#[derive(Clone, Copy)]
pub struct Met {
    pub instruction: Code,
    pub object: Option<u8>,
}

fn object_in(x: Slot) -> Option<u8>
    ensures { object_answered result ≡ object_in x.value }
{
    match x.value {
        Value::Ref(o) => Some(o),
        Value::Int(_) | Value::Null => None,
    }
}

fn object_met(t: Thread, x: Code) -> Option<u8>
    ensures { object_answered result ≡ object_met t x }
{
    if (x.opcode == 7) | (x.opcode == 8) {
        return object_in(threads::var(t, Var(x.operand)));
    }
    None
}

// Of a step of this thread in this state; it changes nothing, and judges neither bundle nor state: that is the step's.
pub fn meets(b: &[u8], s: State, thread: u8) -> Met
    ensures { met_in result ≡ met_of b.now s thread }
{
    let t = state::thread(s, thread);
    if !t.live {
        return Met {
            instruction: Code {
                opcode: 0,
                operand: 0,
                address: 0,
            },
            object: None,
        };
    }
    let m = bundle::record_at(b, t.class);
    let x = m.code_at(t.at);
    Met {
        instruction: x,
        object: object_met(t, x),
    }
}
