// The input: two bytes of length, the bundle, a mode byte, in mode 1 a state, and the schedule, one byte a step.
// What is read of an input that is_input refuses means nothing. The crate state_bytes has a state's format.
ghost use Rattle.std.specs.Prelude.{◌≤◌};

use state::State;

const MOST_STEPS: usize = 4096;

// The part from a up to e; where there is none such, an empty one.
fn part(s: &[u8], a: usize, e: usize) -> &[u8] {
    if e < a {
        return &s[..0];
    }
    if s.len() < e {
        return &s[..0];
    }
    &s[a..e]
}

fn mode_at(s: &[u8]) -> usize
    ensures { result ≤ 65537 }
{
    2 + (ground::word(s, 0) as usize)
}

pub(crate) fn is_given(s: &[u8]) -> bool {
    ground::byte(s, mode_at(s)) == 1
}

fn schedule_at(s: &[u8]) -> usize {
    let m = mode_at(s);
    if is_given(s) {
        m + 1 + state_bytes::LENGTH
    } else {
        m + 1
    }
}

pub(crate) fn bundle(s: &[u8]) -> &[u8] {
    part(s, 2, mode_at(s))
}

fn given_part(s: &[u8]) -> &[u8] {
    part(s, mode_at(s) + 1, schedule_at(s))
}

pub(crate) fn schedule(s: &[u8]) -> &[u8] {
    part(s, schedule_at(s), s.len())
}

pub(crate) fn is_input(s: &[u8]) -> bool {
    let m = mode_at(s);
    if s.len() <= m {
        return false;
    }
    if 1 < ground::byte(s, m) {
        return false;
    }
    let first = schedule_at(s);
    if s.len() < first {
        return false;
    }
    if MOST_STEPS < s.len() - first {
        return false;
    }
    if is_given(s) {
        return state_bytes::is_state(given_part(s));
    }
    true
}

pub(crate) fn state(s: &[u8]) -> State {
    state_bytes::state(given_part(s))
}
