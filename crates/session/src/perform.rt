ghost use Rattle.std.specs.Prelude.{◌≡◌, vec_capacity};
ghost use Rattle.session.specs.Acts.{ActLaw};
ghost use Rattle.session.specs.Places.{HasRoom, TakesOnePlace};

use crate::turn::Act;
use bench::{Calls, Reply, Slip};

// One act at a bench. There is room for one slip more. No reply: no slip is held at that place, so there was no call.
pub(crate) fn perform<B: Calls>(
    bench: &mut B,
    held: &mut Vec<Slip>,
    act: Act<B::Event>,
) -> Option<Reply>
    requires { HasRoom held.old 1 }
    ensures law { ActLaw B.Calls.stands bench.old held.old.items act result bench.new held.new.items }
    ensures room { TakesOnePlace held.old held.new }
    ensures capacity { vec_capacity held.new ≡ vec_capacity held.old }
{
    // Each act is another call with another answer, so there is no one step that could be passed in.
    Some(match act {
        Act::Open => match bench.open() {
            Ok(slip) => {
                let reply = Reply::Opened(slip.bench(), slip.run());
                held.push_reserved(slip);
                reply
            }
            Err(refusal) => Reply::Refused(refusal),
        },
        Act::Take(e) => bench.take(e).map_or_else(Reply::Refused, |()| Reply::Taken),
        Act::Ask => bench.ask().map_or_else(Reply::Refused, Reply::Told),
        Act::Close(k) => {
            if k >= held.len() {
                return None;
            }
            match bench.close(held.remove(k)) {
                Ok(report) => Reply::Closed(report),
                Err((slip, refusal)) => {
                    held.insert(k, slip).unwrap();
                    Reply::Refused(refusal)
                }
            }
        }
    })
}
