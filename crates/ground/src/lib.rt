// Total reads of bytes and big-endian numbers: past the end every byte is 0.
#![tactic(auto)]

ghost use Rattle.std.specs.Prelude.{◌≡◌, ◌+◌, ◌*◌, ◌-◌, length};
ghost use Rattle.ground.specs.Bytes.{at, be16, quad};

pub fn byte(s: &[u8], i: usize) -> u8
    ensures { result ≡ at s.now i }
{
    if i < s.len() { s[i] } else { 0 }
}

// Its parameters fit by their type, so that a caller is asked nothing.
pub fn join(hi: u8, lo: u8) -> u16
    ensures { result ≡ hi * 256 + lo }
{
    (hi as u16) * 256 + (lo as u16)
}

pub fn word(s: &[u8], i: usize) -> u16
    ensures { result ≡ be16 s.now i }
{
    if i < s.len() {
        return join(s[i], byte(s, i + 1));
    }
    0
}

pub fn halves(hi: u16, lo: u16) -> u32
    ensures { result ≡ hi * 65536 + lo }
{
    (hi as u32) * 65536 + (lo as u32)
}

// The four-byte number at i, 0 where it is not all there.
#[tactic(auto, unfolding(crate::specs::Bytes::quad))]
pub fn quad(s: &[u8], i: usize) -> u32
    ensures { result ≡ quad s.now i }
{
    if i < back(s, 3) {
        return halves(join(s[i], s[i + 1]), join(s[i + 2], s[i + 3]));
    }
    0
}

// Where the last n bytes begin, and the start of a shorter string.
pub fn back(s: &[u8], n: usize) -> usize
    ensures { result ≡ length s.now - n }
{
    s.len().saturating_sub(n)
}
