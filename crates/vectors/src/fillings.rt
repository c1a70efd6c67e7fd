// A bundle whose pairs are worked out. The bundle that a case puts together stays as it is; what is left of it stands in the buffer's second half.
use crate::build::Buffer;
use crate::words;
use verdicts::Verdict;

fn copy(b: &mut Buffer) {
    let (whole, left) = b.split_at_mut(65536);
    left.copy_from_slice(whole);
}

// Nothing where there are no n bytes: no case asks for more than there are.
fn fill_first(b: &mut [u8], n: usize) -> Option<Verdict> {
    if b.len() < n {
        return None;
    }
    Some(verdicts::in_numbers(pairs::fill(&mut b[..n])))
}

fn fill_behind(b: &mut [u8], n: usize) -> Option<Verdict> {
    if b.len() < 65536 {
        return None;
    }
    fill_first(&mut b[65536..], n)
}

pub(crate) fn fill(b: &mut Buffer, n: usize) -> Option<Verdict> {
    copy(b);
    fill_behind(b, n)
}

// Whether every byte is as it was put together, behind the bundle too.
pub(crate) fn same(b: &[u8]) -> bool {
    words::first(b, 65536) == words::from(b, 65536)
}
