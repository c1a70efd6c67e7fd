// A 32-bit word that keeps a set of numbers below 32, one bit each, set and cleared by shift and mask.
#![tactic(auto)]

ghost use Rattle.std.specs.Prelude.{◌≡◌};
ghost use Rattle.held.specs.Word.{set_bit, clear_bit, marked, bits_set, apart};

// Past 31 there is no bit.
fn set_bit(w: u32, i: u8) -> u32
    ensures { result ≡ set_bit w i }
{
    if i < 32 { w | (1 << i) } else { w }
}

fn clear_bit(w: u32, i: u8) -> u32
    ensures { result ≡ clear_bit w i }
{
    if i < 32 { w & !(1 << i) } else { w }
}

#[tactic(auto, unfolding(crate::specs::Word::marked))]
pub fn mark(w: u32, i: u8, n: u16) -> u32
    ensures { result ≡ marked w i n }
{
    if n == 0 {
        clear_bit(w, i)
    } else {
        set_bit(w, i)
    }
}

pub fn bits_set(w: u32) -> u8
    ensures { result ≡ bits_set w }
{
    w.count_ones() as u8
}

pub fn apart(w: u32, v: u32) -> bool
    ensures { result ≡ apart w v }
{
    w & v == 0
}
