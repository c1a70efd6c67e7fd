// States of the machine, put together place by place, so that one that no machine ever reached can be tried.
use instructions::Addr;
use state::State;
use threads::Thread;
use values::Slot;

fn byte(x: u32) -> u8 {
    (x % 256) as u8
}

// Nothing live, object 0 of class 0, all else 0. Written out, and not the state crate's own, so that the fresh machine is held against something else.
pub(crate) fn blank() -> State {
    let zero = values::int_slot(0);
    let t = Thread {
        live: false,
        class: 0,
        at: Addr(0),
        depth: 0,
        vars: [zero; 16],
        stack: [zero; 16],
    };
    State {
        threads: [t; 8],
        counts: [0u16; 256],
        objects: 1,
        classes: [0u8; 32],
        fields: [zero; 128],
        held: [0u32; 8],
    }
}

// A value is 0 and an integer, 1 and an object, or 2: null.
fn value(kind: u32, n: u32) -> Slot {
    match kind {
        1 => values::ref_slot(byte(n)),
        2 => values::null_slot(),
        _ => values::int_slot(n),
    }
}

// The word that a thread's counts come to, worked out count by count, so that the machine's own is held against something else.
fn word_of(counts: [u16; 256], i: u8) -> u32 {
    let mut w: u32 = 0;
    for o in 0..32u8 {
        if 0 < state::count(&counts, i, o) {
            w = w | (1u32 << (o as u32));
        }
    }
    w
}

// A count, and the word beside it.
fn with_count(s: State, i: u8, o: u8, n: u16) -> State {
    let mut next = s;
    let k = (i % 8) as usize;
    next.counts[k * 32 + (o % 32) as usize] = n;
    let counts = next.counts;
    next.held[k] = word_of(counts, i);
    next
}

// One of the places, or all, as a step's numbers from the second on say.
fn with_value(a: [Slot; 16], v: [u32; 16]) -> [Slot; 16] {
    let x = value(v[3], v[4]);
    let mut next = a;
    let k = (v[1] % 16) as usize;
    if v[2] == 0 {
        return [x; 16];
    }
    next[k] = x;
    next
}

fn standing(t: Thread, v: [u32; 16]) -> Thread {
    let vars = t.vars;
    let stack = t.stack;
    Thread {
        live: v[1] == 1,
        class: byte(v[2]),
        at: Addr((v[3] % 65536) as u16),
        depth: byte(v[4]),
        vars: vars,
        stack: stack,
    }
}

fn changed(t: Thread, of: u8, v: [u32; 16]) -> Thread {
    let mut next = t;
    let vars = t.vars;
    let stack = t.stack;
    match of {
        b'T' => standing(t, v),
        b'V' => {
            let a = with_value(vars, v);
            next.vars = a;
            next
        }
        _ => {
            let a = with_value(stack, v);
            next.stack = a;
            next
        }
    }
}

// A step that changes the state, by its capital.
pub(crate) fn put(s: State, of: u8, v: [u32; 16]) -> State {
    let mut next = s;
    let i = byte(v[0]);
    let o = (i % 32) as usize;
    let second = byte(v[1]);
    match of {
        b'N' => with_count(s, i, second, (v[2] % 65536) as u16),
        b'L' => {
            next.held[(i % 8) as usize] = v[1];
            next
        }
        b'O' => {
            next.objects = i;
            next
        }
        b'C' => {
            next.classes[o] = second;
            next
        }
        b'H' => state::put_field(s, i, second, value(v[2], v[3])),
        _ => state::put_thread(s, i, changed(state::thread(s, i), of, v)),
    }
}
