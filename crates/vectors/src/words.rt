// Parts of a text: a text is lines, a line is steps, a step is words.
ghost use Rattle.std.specs.Prelude.{◌≤◌, length};

// A text is gone through word by word, each as long as it is, so no range goes over the places: here and in `script`, `lines` and `grammar`.
// The index of the first such byte from a place on, or the length where there is none.
pub(crate) fn upto(s: &[u8], at: usize, stop: u8) -> usize
    requires { at ≤ length s.now }
    ensures { (at ≤ result) × (result ≤ length s.now) }
{
    for i in at..s.len() {
        if s[i] == stop {
            return i;
        }
    }
    s.len()
}

// The part from a place on; it is empty where there is no such place.
pub(crate) fn from<'a>(s: &'a [u8], at: usize) -> &'a [u8] {
    if at <= s.len() {
        return &s[at..];
    }
    &s[..0]
}

// The first n bytes, or all of them where there are fewer.
pub(crate) fn first<'a>(s: &'a [u8], n: usize) -> &'a [u8] {
    if n <= s.len() {
        return &s[..n];
    }
    s
}

// What stands from a place on, up to the next such byte.
pub(crate) fn piece<'a>(s: &'a [u8], at: usize, stop: u8) -> &'a [u8] {
    let rest = from(s, at);
    let end = upto(rest, 0, stop);
    &rest[..end]
}

// What follows such a word and a space at the start of a line; it is empty where the line begins otherwise.
pub(crate) fn after_word<'a>(line: &'a [u8], w: &[u8]) -> &'a [u8] {
    if piece(line, 0, b' ') == w {
        return from(line, std::num::wrapping_add_usize(w.len(), 1));
    }
    first(line, 0)
}

// The place of a word among words that are parted by spaces, from 1, if it is one of them.
pub(crate) fn place_in(list: &[u8], w: &[u8]) -> Option<u64> {
    let mut at = 0;
    let mut place: u64 = 1;
    while at < list.len() {
        let end = upto(list, at, b' ');
        if &list[at..end] == w {
            return Some(place);
        }
        place = std::num::wrapping_add_u64(place, 1);
        at = end + 1;
    }
    None
}
