ghost use Rattle.std.specs.Prelude.{◌≡◌, Bool, List, [], ◌∷◌};
ghost use Rattle.observers.specs.Foresight.{Foresees};

// Watches a run of events, one by one.
//     rule   the runs that it keeps
//     rest   the continuations that would now be kept
// Contracts above cite both side by side, since a member that pairs them would be a third one to keep equal to both.
pub trait Observer {
    type Event;

    ghost rule: { Self → List Self.Event → Bool };

    ghost rest: { Self → List Self.Event → Bool };

    fn take(&mut self, e: Self::Event)
        ensures rule { rule self.new ≡ rule self.old }
        ensures rest { (t : List Self.Event) → rest self.new t ≡ rest self.old (e ∷ t) };

    fn mark(&self) -> bool
        ensures { result ≡ rest self.now [] };

    fn restart(&mut self)
        ensures rule { rule self.new ≡ rule self.old }
        ensures rest { rest self.new ≡ rule self.old };
}

// What can still become of a run. A bench tells these cases with a count: one enum over what stands with a case would have every observer write
// `Lost(())`.
#[derive(Clone, Copy, PartialEq, Eq, Debug)]
pub enum Outlook {
    Lost,
    Safe,
    Open,
}

// An observer that foresees.
pub trait FarSighted: Observer {
    fn outlook(&self) -> Outlook
        ensures { Foresees (Self.Observer.rest self.now) result };
}
