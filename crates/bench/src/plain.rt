ghost use Rattle.std.specs.Prelude.{◌≡◌, []};
ghost use Rattle.bench.specs.Log.{fresh};
ghost use Rattle.bench.specs.Calls.{Stands};

use crate::calls::Calls;
use crate::run::Run;
use crate::slip::{Slip, write_off};
use answers::{Refusal, Report};
use observers::Observer;

const MOST_RUNS: u16 = 65_535;

const MOST_EVENTS: u32 = 1_000_000;

// A run that has ended keeps its count until the next opening.
#[derive(Drop)]
pub struct Bench<O> {
    number: u16,
    opened: u16,
    pub(crate) run: Run,
    pub(crate) observer: O,
}

impl<O: Observer> Bench<O> {
    pub fn new(number: u16, observer: O) -> Bench<O>
        ensures { Stands O.Observer.rule O.Observer.rest number (O.Observer.rule observer) result fresh }
    {
        Bench {
            number,
            opened: 0,
            run: Run::Ended(0),
            observer,
        }
    }

    fn report(&self, count: u32) -> Report
        ensures mark { result.mark ≡ O.Observer.rest self.now.observer [] }
        ensures count { result.count ≡ count }
    {
        Report {
            mark: self.observer.mark(),
            count,
        }
    }
}

impl<O: Observer> Calls for Bench<O>
where
    O::Event: Drop,
{
    type Event = O::Event;

    ghost stands = { Stands O.Observer.rule O.Observer.rest };

    fn open(&mut self) -> Result<Slip, Refusal> {
        if self.opened == MOST_RUNS {
            return Err(Refusal::RunsSpent);
        }
        self.opened += 1;
        self.run = Run::Open(0);
        self.observer.restart();
        Ok(Slip {
            bench: self.number,
            run: self.opened,
        })
    }

    fn take(&mut self, e: O::Event) -> Result<(), Refusal> {
        let count = self.run.open_count().ok_or(Refusal::NoRunOpen)?;
        if count >= MOST_EVENTS {
            return Err(Refusal::RunFull);
        }
        self.run = Run::Open(count + 1);
        self.observer.take(e);
        Ok(())
    }

    fn ask(&self) -> Result<Report, Refusal> {
        let count = self.run.open_count().ok_or(Refusal::NoRunOpen)?;
        Ok(self.report(count))
    }

    fn close(&mut self, slip: Slip) -> Result<Report, (Slip, Refusal)> {
        // The two numbers are compared as they are: a struct of both would be made anew here only to be compared.
        match self.run {
            Run::Open(count) if slip.bench == self.number && slip.run == self.opened => {
                self.run = Run::Ended(count);
                write_off(slip);
                Ok(self.report(count))
            }
            _ => Err((slip, Refusal::SlipNotOfRun)),
        }
    }
}
