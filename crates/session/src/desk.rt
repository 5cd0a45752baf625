ghost use Rattle.std.specs.Prelude.{◌≡◌, vec_capacity};
ghost use Rattle.bench.specs.Calls.{LookStands};
ghost use Rattle.session.specs.Desks.{TurnLaw};
ghost use Rattle.session.specs.Places.{HasRoom, TakesOnePlace};

use crate::perform::perform;
use crate::turn::Turn;
use bench::{Calls, LookBench, Reply, Slip};
use events::SheetEvent;
use observers::FarSighted;

// A bench with look, and three others.
#[derive(Drop)]
pub(crate) struct Desk<L, P, X, Y> {
    pub(crate) watch: LookBench<L>,
    pub(crate) plain: P,
    pub(crate) first: X,
    pub(crate) second: Y,
}

impl<L: FarSighted, P: Calls, X: Calls<Event = SheetEvent>, Y: Calls<Event = SheetEvent>> Desk<
    L,
    P,
    X,
    Y,
>
where
    L::Event: Drop,
{
    // One turn. There is room for one slip more.
    pub(crate) fn turn(
        &mut self,
        held: &mut Vec<Slip>,
        turn: Turn<L::Event, P::Event>,
    ) -> Option<Reply>
        requires { HasRoom held.old 1 }
        ensures law { TurnLaw (LookStands L.Observer.rule L.Observer.rest) P.Calls.stands X.Calls.stands Y.Calls.stands self.old held.old.items turn result self.new held.new.items }
        ensures room { TakesOnePlace held.old held.new }
        ensures capacity { vec_capacity held.new ≡ vec_capacity held.old }
    {
        // Each arm acts at a bench of a type of its own, so no arm can serve two.
        match turn {
            Turn::Watch(act) => perform(&mut self.watch, held, act),
            Turn::Look => Some(self.watch.look().map_or_else(Reply::Refused, Reply::Looked)),
            Turn::Plain(act) => perform(&mut self.plain, held, act),
            Turn::First(act) => perform(&mut self.first, held, act),
            Turn::Second(act) => perform(&mut self.second, held, act),
        }
    }
}
