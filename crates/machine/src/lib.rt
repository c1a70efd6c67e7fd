// The machine of document 01: a fresh machine, and one step of one thread. Each call checks bundle and state for itself.
#![tactic(auto)]

ghost use Rattle.std.specs.Prelude.{◌≡◌, ◌<◌, true};
ghost use Rattle.bundle.specs.Program.{program_of};
ghost use Rattle.ground.specs.Bounded.{Told};
ghost use Rattle.state.specs.State.{lowest_free};
ghost use Rattle.belongs.specs.Belongs.{state_ok};
ghost use Rattle.turns.specs.Numbers.{answer_number};
ghost use Rattle.turns.specs.Stepped.{stepped_in};
ghost use Rattle.turns.specs.Turns.{begun};
ghost use Rattle.machine.specs.Machine.{main_thread, readable, fresh_of, step_of};

use instructions::Addr;
use state::State;
use threads::Thread;
use turns::{Answer, Change, Stepped, Turn, View};

fn main_thread() -> Thread
    ensures { result ≡ main_thread }
{
    let z = values::zero_slot();
    Thread {
        live: true,
        class: 0,
        at: Addr(1),
        depth: 0,
        vars: [z; 16],
        stack: [z; 16],
    }
}

pub fn fresh(b: &[u8]) -> Stepped
    ensures { stepped_in result ≡ fresh_of b.now }
{
    let s = state::empty_state();
    if structure::structure(b).is_err() {
        return Stepped {
            answer: Answer::BadBundle,
            state: s,
        };
    }
    let c = bundle::exception(b);
    let first = turns::fields::first_fields(b, c);
    Stepped {
        answer: Answer::WentOn,
        state: state::put_thread(state::add_object(s, c, first), 0, main_thread()),
    }
}

// Thread i, which was t, takes the turn w, and the thread that begins has the lowest number that is free.
fn begun(s: State, i: u8, t: Thread, w: Turn, c: u8, args: u8, lowest: Option<u8>) -> Stepped
    ensures { Told 8 (lowest_free s) lowest → stepped_in result ≡ begun s i t w.thread (answer_number w.answer) c args }
{
    let Some(j) = lowest else {
        return Stepped {
            answer: Answer::Crowded,
            state: s,
        };
    };
    let begins = threads::start(state::thread(s, j), t, c, args);
    let next = state::put_thread(s, j, begins);
    Stepped {
        answer: w.answer,
        state: state::put_thread(next, i, w.thread),
    }
}

// An arm that writes in place and returns leaves the state copied once on its way in and once on its way out; new, putfield and start call what takes the state.
fn run(b: &[u8], s: State, i: u8, fails: bool) -> Stepped
    requires { (i < 8) × (readable b.now ≡ true) × (state_ok (program_of b.now) s ≡ true) }
    ensures { stepped_in result ≡ step_of b.now s i fails }
{
    let mut next = s;
    let p = i as usize;
    let t = next.threads[p];
    let view = View {
        objects: next.objects,
        counts: &next.counts,
        classes: &next.classes,
        number: i,
    };
    let w = match turns::turn_of(b, &view, t, fails) {
        Ok(w) => w,
        Err(answer) => {
            return Stepped {
                answer,
                state: next,
            };
        }
    };
    let answer = w.answer;
    let u = w.thread;
    match w.change {
        Change::Alone => {
            next.threads[p] = u;
            return Stepped {
                answer,
                state: next,
            };
        }
        // The one place where counts and held words are written.
        Change::Count(o, m) => {
            let k = p * 32 + (o as usize);
            next.threads[p] = u;
            if k < 256 {
                next.counts[k] = m;
                next.held[p] = held::mark(next.held[p], o, m);
                return Stepped {
                    answer,
                    state: next,
                };
            }
            return Stepped {
                answer,
                state: next,
            };
        }
        Change::Object(c) => {
            let first = turns::fields::first_fields(b, c);
            return Stepped {
                answer,
                state: state::put_thread(state::add_object(next, c, first), i, u),
            };
        }
        Change::Field(o, f, x) => {
            return Stepped {
                answer,
                state: state::put_thread(state::put_field(next, o, f, x), i, u),
            };
        }
        Change::Top(o, f) => {
            next.threads[p] = threads::set_top(u, state::field(next.fields, o, f));
            return Stepped {
                answer,
                state: next,
            };
        }
        Change::Begin(c, args) => {
            let lowest = state::lowest_free(next.threads);
            return begun(next, i, t, w, c, args, lowest);
        }
    }
}

pub fn step(b: &[u8], s: State, thread: u8, fails: bool) -> Stepped
    ensures { stepped_in result ≡ step_of b.now s thread fails }
{
    if structure::structure(b).is_err() {
        return Stepped {
            answer: Answer::BadBundle,
            state: s,
        };
    }
    if !belongs::state_ok(b, s) {
        return Stepped {
            answer: Answer::BadState,
            state: s,
        };
    }
    if 8 <= thread {
        return Stepped {
            answer: Answer::NotLive,
            state: s,
        };
    }
    run(b, s, thread, fails)
}
