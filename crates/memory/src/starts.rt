// start: what the starter hands on, and a thread that begins.
ghost use Rattle.std.specs.Prelude.{◌≡◌, ◌<◌};
ghost use Rattle.memory.specs.Tab.{tab};
ghost use Rattle.memory.specs.Frames.{argument_in, begun_in};

use crate::Frame;

impl Frame {
    // Variable v of a thread that is started with the top n entries.
    fn argument(&self, n: u8, v: usize) -> u64
        requires { v < 16 }
        ensures { result ≡ argument_in self.now n v }
    {
        if n as usize <= v {
            return 0;
        }
        self.stack[((self.depth % 16) as usize + 31 - v) % 16]
    }

    // The top n entries, the top first, and 0.
    pub fn arguments(&self, n: u8) -> [u64; 16]
        ensures { result ≡ tab 16 (argument_in self.now n) }
    {
        let mut next = [0u64; 16];
        for v in 0..16 {
            next[v] = self.argument(n, v);
        }
        next
    }

    // A thread at address 1 of class c with these variables.
    pub fn begin(&mut self, vars: [u64; 16], c: u8)
        ensures { self.new ≡ begun_in self.old vars c }
    {
        self.vars = vars;
        self.class = c as u64;
        self.at = 1;
        self.depth = 0;
        self.live = 1;
    }
}
