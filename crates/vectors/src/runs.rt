// Steps of the machine, from the state that a case has put together.
use state::State;
use turns::{Answer, Stepped};

fn steps(b: &[u8], s: State, thread: u8, fails: bool, n: u32) -> Stepped {
    let mut came = Stepped {
        answer: Answer::WentOn,
        state: s,
    };
    for _ in 0..n {
        let next = machine::step(b, came.state, thread, fails);
        came = next;
    }
    came
}

// By its capital: the fresh machine, or steps.
pub(crate) fn moved(b: &[u8], s: State, of: u8, v: [u32; 16]) -> Stepped {
    if of == b'F' {
        return machine::fresh(b);
    }
    steps(b, s, (v[0] % 256) as u8, v[1] == 1, v[2])
}
