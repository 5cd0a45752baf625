ghost use Rattle.std.specs.Prelude.{◌≡◌, not};

use crate::observer::{FarSighted, Observer, Outlook};

// Keeps the runs that the observer below does not keep.
#[derive(Drop)]
pub struct Complement<O> {
    below: O,
}

impl<O> Complement<O> {
    pub fn new(below: O) -> Complement<O>
        ensures { result.below ≡ below }
    {
        Complement { below }
    }
}

impl<O: Observer> Observer for Complement<O> {
    type Event = O::Event;

    ghost rule = { λ s t. not (O.Observer.rule s.below t) };

    ghost rest = { λ s t. not (O.Observer.rest s.below t) };

    fn take(&mut self, e: O::Event) {
        self.below.take(e);
    }

    fn mark(&self) -> bool {
        !self.below.mark()
    }

    fn restart(&mut self) {
        self.below.restart();
    }
}

impl<O: FarSighted> FarSighted for Complement<O> {
    fn outlook(&self) -> Outlook {
        match self.below.outlook() {
            Outlook::Lost => Outlook::Safe,
            Outlook::Safe => Outlook::Lost,
            Outlook::Open => Outlook::Open,
        }
    }
}
