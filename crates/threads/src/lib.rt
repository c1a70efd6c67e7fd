// One thread of the machine: its variables and its stack.
#![tactic(auto)]

ghost use Rattle.std.specs.Prelude.{◌≡◌, ◌-◌, replicate};
ghost use Rattle.ground.specs.Bounded.{set_below, fill_from};
ghost use Rattle.values.specs.Values.{zero_slot};
ghost use Rattle.threads.specs.Threads.{idle, from_top, top_of, var_of, with_at, topped, pushed, popped, stored, ended, started};

use instructions::{Addr, Var};
use values::Slot;

// The arrays come first, with no gap before them: threads and states are copied often.
#[derive(Clone, Copy, PartialEq, Eq)]
pub struct Thread {
    pub vars: [Slot; 16],
    pub stack: [Slot; 16],
    pub live: bool,
    pub class: u8,
    pub at: Addr,
    pub depth: u8,
}

pub fn idle() -> Thread
    ensures { result ≡ idle }
{
    let z = values::zero_slot();
    Thread {
        live: false,
        class: 0,
        at: Addr(0),
        depth: 0,
        vars: [z; 16],
        stack: [z; 16],
    }
}

// The place of stack entry j.
fn place(depth: u8, j: u8) -> u8
    ensures { result ≡ depth - 1 - j }
{
    depth.saturating_sub(1).saturating_sub(j)
}

pub fn from_top(t: Thread, j: u8) -> Slot
    ensures { result ≡ from_top t j }
{
    let p = place(t.depth, j) as usize;
    if p < 16 {
        t.stack[p]
    } else {
        values::zero_slot()
    }
}

pub fn top(t: Thread) -> Slot
    ensures { result ≡ top_of t }
{
    from_top(t, 0)
}

pub fn var(t: Thread, v: Var) -> Slot
    ensures { result ≡ var_of t v.0 }
{
    let i = v.0 as usize;
    if i < 16 {
        t.vars[i]
    } else {
        values::zero_slot()
    }
}

pub fn set_top(t: Thread, x: Slot) -> Thread
    ensures { result ≡ topped t x }
{
    let mut next = t;
    let p = t.depth.saturating_sub(1) as usize;
    if p < 16 {
        next.stack[p] = x;
        return next;
    }
    next
}

pub fn push(t: Thread, x: Slot) -> Thread
    ensures { result ≡ pushed t x }
{
    let mut next = t;
    let d = t.depth;
    let p = d as usize;
    if d < 16 {
        next.stack[p] = x;
        next.depth = d + 1;
        return next;
    }
    next
}

// The n places from `from` on become integer 0, those of them that there are.
fn zero_from(a: [Slot; 16], from: u8, n: u8) -> [Slot; 16]
    ensures { result ≡ fill_from from n zero_slot a }
{
    let mut next = a;
    let z = values::zero_slot();
    for i in 0..n {
        let p = from as usize + i as usize;
        if 16 <= p {
            return next;
        }
        next[p] = z;
    }
    next
}

#[tactic(auto, unfolding(crate::specs::Threads::popped))]
pub fn pop(t: Thread, n: u8) -> Thread
    ensures { result ≡ popped n t }
{
    let mut next = t;
    let d = t.depth.saturating_sub(n);
    let old = t.stack;
    let stack = zero_from(old, d, n);
    next.stack = stack;
    next.depth = d;
    next
}

pub fn store(t: Thread, v: Var, x: Slot) -> Thread
    ensures { result ≡ stored t v.0 x }
{
    let mut next = t;
    let i = v.0 as usize;
    if i < 16 {
        next.vars[i] = x;
        return next;
    }
    next
}

pub fn go(t: Thread, a: Addr) -> Thread
    ensures { result ≡ with_at t a.0 }
{
    let mut next = t;
    next.at = a;
    next
}

#[tactic(auto, unfolding(crate::specs::Threads::ended))]
pub fn end(t: Thread, v: u8) -> Thread
    ensures { result ≡ ended v t }
{
    let old_vars = t.vars;
    let old_stack = t.stack;
    let vars = zero_from(old_vars, 0, v);
    let stack = zero_from(old_stack, 0, t.depth);
    Thread {
        live: false,
        class: 0,
        at: Addr(0),
        depth: 0,
        vars: vars,
        stack: stack,
    }
}

// The variables that a thread starts with: the starter's top n entries, and 0.
fn arguments(starter: Thread, n: u8) -> [Slot; 16]
    ensures { result ≡ set_below n (from_top starter) (replicate 16 zero_slot) }
{
    let z = values::zero_slot();
    let mut next = [z; 16];
    let d = starter.depth;
    for j in 0..n {
        let i = j as usize;
        if 16 <= i {
            return next;
        }
        let p = place(d, j) as usize;
        let x = if p < 16 { starter.stack[p] } else { z };
        next[i] = x;
    }
    next
}

#[tactic(auto, unfolding(crate::specs::Threads::started))]
pub fn start(old: Thread, starter: Thread, c: u8, n: u8) -> Thread
    ensures { result ≡ started old starter c n }
{
    let vars = arguments(starter, n);
    let stack = old.stack;
    Thread {
        live: true,
        class: c,
        at: Addr(1),
        depth: 0,
        vars: vars,
        stack: stack,
    }
}
