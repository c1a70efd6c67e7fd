// The instructions of a code in their order, from its first byte on.
ghost use Rattle.std.specs.Prelude.{◌≡◌, ◌-◌, length};
ghost use Rattle.std.specs.Iterator.{at_most};
ghost use Rattle.java.specs.Walks.{WalksOn};

use crate::Java;

// An instruction, the offset at which it begins, and the bytes that it takes.
#[derive(Clone, Copy)]
pub struct Placed {
    pub at: usize,
    pub java: Java,
    pub size: usize,
}

#[derive(Drop)]
pub struct Steps<'a> {
    code: &'a [u8],
    at: usize,
}

pub fn walk<'a>(code: &'a [u8]) -> Steps<'a>
    ensures { (result.code.now ≡ code.now) × (result.at ≡ 0) }
{
    Steps { code: code, at: 0 }
}

impl<'a> Iterator for Steps<'a> {
    type Item = Placed;

    ghost next_gives = { WalksOn };

    ghost remaining = { λ s. at_most (length s.code.now - s.at) };

    fn next(&mut self) -> Option<Placed> {
        let p = self.at;
        if self.code.len() <= p {
            return None;
        }
        let r = crate::read_at(self.code, p);
        self.at = p + r.size;
        Some(Placed {
            at: p,
            java: r.java,
            size: r.size,
        })
    }
}
