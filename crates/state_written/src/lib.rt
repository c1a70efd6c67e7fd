// A state of the machine written as bytes, in the format of hveitmar_trace: 2,537 bytes, the ones that state_bytes reads.
#![tactic(auto)]

mod laid;

ghost use Rattle.std.specs.Prelude.{◌≡◌};
ghost use Rattle.state_written.specs.Written.{state_bytes};

use crate::laid::{Laid, put_all};
use state::State;
use state_bytes::LENGTH;

pub fn bytes(s: State) -> [u8; LENGTH]
    ensures { result ≡ state_bytes s }
{
    let mut out = [0u8; LENGTH];
    put_all(&mut out, 0, &s.threads);
    put_all(&mut out, 1320, &s.counts);
    s.objects.put(&mut out, 1832);
    put_all(&mut out, 1833, &s.classes);
    put_all(&mut out, 1865, &s.fields);
    put_all(&mut out, 2505, &s.held);
    out
}
