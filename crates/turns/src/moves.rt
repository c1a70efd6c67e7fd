// How a thread goes on.
ghost use Rattle.std.specs.Prelude.{◌≡◌, ◌+◌, ◌<◌};
ghost use Rattle.threads.specs.Threads.{with_at};
ghost use Rattle.turns.specs.declared.Answer.TheVariants.{WentOn};
ghost use Rattle.turns.specs.declared.Change.TheVariants.{Alone};

use crate::{Answer, Change, Turn};
use instructions::Addr;
use threads::Thread;

pub(crate) fn went_to(u: Thread, a: Addr) -> Turn
    ensures { result ≡ record { thread = with_at u a.0; answer = WentOn; change = Alone } }
{
    Turn {
        thread: threads::go(u, a),
        answer: Answer::WentOn,
        change: Change::Alone,
    }
}

pub(crate) fn went_on(here: Addr, u: Thread, c: Change) -> Turn
    requires { here.0 < 65535 }
    ensures { result ≡ record { thread = with_at u (here.0 + 1); answer = WentOn; change = c } }
{
    Turn {
        thread: threads::go(u, Addr(here.0 + 1)),
        answer: Answer::WentOn,
        change: c,
    }
}
