ghost use Rattle.std.specs.Prelude.{◌≡◌, Option};
ghost use Rattle.observers.specs.Turned.{turned};

use crate::observer::Observer;

// A turning of events: each becomes one event of the kind below, or none. It is no closure, since rule and rest need it as
// a function, and a closure's contract only relates what it is given to what it may answer.
pub trait Turning {
    type Above;

    type Under;

    ghost turning: { Self → Self.Above → Option Self.Under };

    fn turn(&self, e: Self::Above) -> Option<Self::Under>
        ensures { result ≡ turning self.now e };
}

// Keeps the runs that, so turned, are kept below. A port does not foresee.
#[derive(Drop)]
pub struct Port<T, O> {
    turns: T,
    below: O,
}

impl<T, O> Port<T, O> {
    pub fn new(turns: T, below: O) -> Port<T, O>
        ensures turns { result.turns ≡ turns }
        ensures below { result.below ≡ below }
    {
        Port { turns, below }
    }
}

impl<T: Turning, O: Observer<Event = T::Under>> Observer for Port<T, O> {
    type Event = T::Above;

    ghost rule = { λ s t. O.Observer.rule s.below (turned (T.Turning.turning s.turns) t) };

    ghost rest = { λ s t. O.Observer.rest s.below (turned (T.Turning.turning s.turns) t) };

    fn take(&mut self, e: T::Above) {
        if let Some(f) = self.turns.turn(e) {
            self.below.take(f);
        }
    }

    fn mark(&self) -> bool {
        self.below.mark()
    }

    fn restart(&mut self) {
        self.below.restart();
    }
}
