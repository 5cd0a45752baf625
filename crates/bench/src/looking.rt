ghost use Rattle.std.specs.Prelude.{◌≡◌, ◌≢◌};
ghost use Rattle.bench.specs.Log.{fresh};
ghost use Rattle.bench.specs.Log.{Look as looking};
ghost use Rattle.bench.specs.Calls.{LookStands, Lawful, look_reply, sight_at, SeenNow};

use crate::calls::Calls;
use crate::plain::Bench;
use crate::slip::Slip;
use answers::{Refusal, Report, Sight};
use observers::{FarSighted, Outlook};

// A bench that also follows the outlook of the open run, from the opening on. Where no run is open there is no sight.
#[derive(Drop)]
pub struct LookBench<O> {
    bench: Bench<O>,
    sight: Option<Sight>,
}

// An outlook with its count; one enum over what stands with a case would have every observer write `Lost(())`.
fn sight_at(outlook: Outlook, count: u32) -> Sight
    ensures { result ≡ sight_at outlook count }
{
    match outlook {
        Outlook::Lost => Sight::Lost(count),
        Outlook::Safe => Sight::Safe(count),
        Outlook::Open => Sight::Open,
    }
}

impl<O: FarSighted> LookBench<O> {
    pub fn new(number: u16, observer: O) -> LookBench<O>
        ensures { LookStands O.Observer.rule O.Observer.rest number (O.Observer.rule observer) result fresh }
    {
        LookBench {
            bench: Bench::new(number, observer),
            sight: None,
        }
    }

    pub fn look(&self) -> Result<Sight, Refusal>
        ensures { Lawful (LookStands O.Observer.rule O.Observer.rest) self.now looking (look_reply result) self.now }
    {
        self.sight.ok_or(Refusal::NoRunOpen)
    }

    // What the outlook of the open run is as it stands.
    fn seen(&self) -> Option<Sight>
        ensures { SeenNow O.Observer.rest self.now.bench result }
    {
        let count = self.bench.run.open_count()?;
        Some(sight_at(self.bench.observer.outlook(), count))
    }

    // While the run is open to both, its outlook is asked again.
    fn follow(&mut self)
        ensures bench { self.new.bench ≡ self.old.bench }
        ensures asked { self.old.sight ≡ Some Sight.Open → SeenNow O.Observer.rest self.old.bench self.new.sight }
        ensures kept { (self.old.sight ≢ Some Sight.Open) → self.new.sight ≡ self.old.sight }
    {
        if let Some(Sight::Open) = self.sight {
            self.sight = self.seen();
        }
    }
}

impl<O: FarSighted> Calls for LookBench<O>
where
    O::Event: Drop,
{
    type Event = O::Event;

    ghost stands = { LookStands O.Observer.rule O.Observer.rest };

    fn open(&mut self) -> Result<Slip, Refusal> {
        let slip = self.bench.open()?;
        self.sight = self.seen();
        Ok(slip)
    }

    fn take(&mut self, e: O::Event) -> Result<(), Refusal> {
        self.bench.take(e)?;
        self.follow();
        Ok(())
    }

    fn ask(&self) -> Result<Report, Refusal> {
        self.bench.ask()
    }

    fn close(&mut self, slip: Slip) -> Result<Report, (Slip, Refusal)> {
        let report = self.bench.close(slip)?;
        self.sight = None;
        Ok(report)
    }
}
