ghost use Rattle.std.specs.Prelude.{◌≡◌, ℕ, Bool, List, IfErr, OnErr};
ghost use Rattle.bench.specs.Log.{Log};
ghost use Rattle.bench.specs.Log.{Open as opening, Take as taking, Ask as asking, Close as closing};
ghost use Rattle.bench.specs.Calls.{Lawful, open_reply, take_reply, ask_reply, close_reply};

use crate::slip::Slip;
use answers::{Refusal, Report};

// The calls that every bench has.
//     stands   a bench of this number, over an observer of this rule, stands at this log
//     same     a refused call leaves the bench as it was: a fact about two benches, which no invariant of one can hold
pub trait Calls {
    type Event: Drop;

    ghost stands: { ℕ → (List Self.Event → Bool) → Self → Log Self.Event → Type 0 };

    // Restarts the observer and begins the next run; a run still open is broken off.
    fn open(&mut self) -> Result<Slip, Refusal>
        ensures law { Lawful stands self.old opening (open_reply result) self.new }
        ensures same { OnErr result (self.new ≡ self.old) };

    // Passes one event on to the observer.
    fn take(&mut self, e: Self::Event) -> Result<(), Refusal>
        ensures law { Lawful stands self.old (taking e) (take_reply result) self.new }
        ensures same { OnErr result (self.new ≡ self.old) };

    fn ask(&self) -> Result<Report, Refusal>
        ensures { Lawful stands self.now asking (ask_reply result) self.now };

    // Tells what ask tells and ends the run, or hands the slip back. What is handed back is a pair: whoever takes it parts it at
    // once, so a struct of its own would be no plainer.
    fn close(&mut self, slip: Slip) -> Result<Report, (Slip, Refusal)>
        ensures law { Lawful stands self.old (closing slip) (close_reply result) self.new }
        ensures back { IfErr result (λ p. p.0 ≡ slip) }
        ensures same { OnErr result (self.new ≡ self.old) };
}
