// One thread as a frame of 36 words, which its moves change in place. A move takes each place modulo 16 and tests nothing, and means what document 01 says where
// the thread has what the move takes.
#![tactic(auto)]

pub mod starts;
pub mod words;

ghost use Rattle.std.specs.Prelude.{◌≡◌, eqb};
ghost use Rattle.memory.specs.Frames.{empty_frame, live_in, class_in, address_in, top_place, top_in, under_in, var_in, went_in, topped_in, pushed_in, popped_in, dropped_in, stored_in, cleared_in, ended_in, thrown_in, branched_in};
ghost use Rattle.memory.specs.Words.{inc_word};

use instructions::{Addr, Var};

// The stack places are from the bottom. Any 36 words are a frame: class and depth are read modulo 256, the address modulo 65536, and `live` is not 0 where the thread
// lives. These four come first, where a step reaches them by the frame's own address.
#[derive(Clone, Copy)]
pub struct Frame {
    pub class: u64,
    pub at: u64,
    pub depth: u64,
    pub live: u64,
    pub vars: [u64; 16],
    pub stack: [u64; 16],
}

impl Frame {
    // Not live, and all else 0.
    pub fn new() -> Frame
        ensures { result ≡ empty_frame }
    {
        Frame {
            vars: [0; 16],
            stack: [0; 16],
            class: 0,
            at: 0,
            depth: 0,
            live: 0,
        }
    }

    pub fn live(&self) -> bool
        ensures { result ≡ live_in self.now }
    {
        self.live != 0
    }

    pub fn class(&self) -> u8
        ensures { result ≡ class_in self.now }
    {
        (self.class % 256) as u8
    }

    pub fn address(&self) -> u16
        ensures { result ≡ address_in self.now }
    {
        (self.at % 65536) as u16
    }

    // The place of the top.
    fn top_place(&self) -> u64
        ensures { result ≡ top_place self.now }
    {
        (self.depth % 16 + 15) % 16
    }

    pub fn top(&self) -> u64
        ensures { result ≡ top_in self.now }
    {
        self.stack[self.top_place() as usize]
    }

    // The entry under the top.
    pub fn under(&self) -> u64
        ensures { result ≡ under_in self.now }
    {
        self.stack[((self.depth % 16 + 14) % 16) as usize]
    }

    pub fn var(&self, v: Var) -> u64
        ensures { result ≡ var_in self.now v.0 }
    {
        self.vars[(v.0 % 16) as usize]
    }

    pub fn go(&mut self, to: u16)
        ensures { self.new ≡ went_in self.old to }
    {
        self.at = to as u64;
    }

    // The top changed in place, and on to an address.
    pub fn set_top(&mut self, w: u64, to: u16)
        ensures { self.new ≡ went_in (topped_in self.old w) to }
    {
        let k = self.top_place();
        self.stack[k as usize] = w;
        self.at = to as u64;
    }

    // inc wraps.
    pub fn inc(&mut self, to: u16)
        ensures { self.new ≡ went_in (topped_in self.old (inc_word (top_in self.old))) to }
    {
        let w = (self.top() % 4294967296 + 1) % 4294967296;
        self.set_top(w, to);
    }

    pub fn push(&mut self, w: u64, to: u16)
        ensures { self.new ≡ went_in (pushed_in self.old w) to }
    {
        let d = self.depth % 16;
        self.stack[d as usize] = w;
        self.depth = d + 1;
        self.at = to as u64;
    }

    // The top gone.
    fn pop_one(&mut self)
        ensures { self.new ≡ popped_in self.old }
    {
        let d = self.top_place();
        self.stack[d as usize] = 0;
        self.depth = d;
    }

    pub fn pop(&mut self, to: u16)
        ensures { self.new ≡ went_in (popped_in self.old) to }
    {
        self.pop_one();
        self.at = to as u64;
    }

    fn drop_all(&mut self, n: u8)
        ensures { self.new ≡ dropped_in n self.old }
    {
        for _ in 0..n {
            self.pop_one();
        }
    }

    // n entries gone from the top.
    pub fn drop(&mut self, n: u8, to: u16)
        ensures { self.new ≡ went_in (dropped_in n self.old) to }
    {
        self.drop_all(n);
        self.at = to as u64;
    }

    pub fn load(&mut self, v: Var, to: u16)
        ensures { self.new ≡ went_in (pushed_in self.old (var_in self.old v.0)) to }
    {
        let w = self.var(v);
        self.push(w, to);
    }

    pub fn store(&mut self, v: Var, to: u16)
        ensures { self.new ≡ went_in (popped_in (stored_in self.old v.0 (top_in self.old))) to }
    {
        let w = self.top();
        self.vars[(v.0 % 16) as usize] = w;
        self.pop(to);
    }

    // `if` jumps on a value that isn't 0, and else goes on.
    pub fn branch(&mut self, a: Addr, to: u16)
        ensures { self.new ≡ branched_in self.old a.0 to }
    {
        if self.top() == 0 {
            self.pop(to);
            return;
        }
        self.pop(a.0);
    }

    fn clear(&mut self, vars: u8)
        ensures { self.new ≡ cleared_in vars self.old }
    {
        for v in 0..vars {
            self.vars[(v % 16) as usize] = 0;
        }
    }

    // The thread, which has so many variables, ends.
    pub fn end(&mut self, vars: u8)
        ensures { self.new ≡ ended_in self.old vars }
    {
        self.clear(vars);
        self.drop_all((self.depth % 32) as u8);
        self.class = 0;
        self.at = 0;
        self.depth = 0;
        self.live = 0;
    }

    // w is thrown, and whether the thread ends of it: with a handler it finds w alone on its stack, and with none it ends.
    pub fn throw(&mut self, vars: u8, h: Addr, w: u64) -> bool
        ensures { (result ≡ eqb h.0 0) × (self.new ≡ thrown_in self.old vars h.0 w) }
    {
        if h.0 == 0 {
            self.end(vars);
            return true;
        }
        self.drop_all((self.depth % 32) as u8);
        self.push(w, h.0);
        false
    }
}
