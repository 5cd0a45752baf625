// Lines of input, each an event that is taken on a bench with look, up to the moment when the run is lost.
#![tactic(auto)]

ghost use Rattle.std.specs.Prelude.{◌≡◌};
ghost use Rattle.bench.specs.Calls.{LookStands};
ghost use Rattle.linewatch.specs.Rows.{row_after, row_step};
ghost use Rattle.linewatch.specs.Taking.{LineLaw, LostLaw};

mod refusal;

use bench::{Calls, LookBench, Sight};
use events::SheetEvent;
use notation::Notation;
pub use numbered::Numbered;
use observers::{FarSighted, Observer};
pub use refusal::TakeRefusal;

// The line of the sheets that is being embossed: its number from 1, and its cells so far.
#[derive(Clone, Copy, PartialEq, Eq, Debug)]
pub struct Row {
    pub number: u32,
    pub cells: u32,
}

// What came of a line of input whose event was taken.
#[derive(Clone, Copy, PartialEq, Eq, Debug)]
pub enum Step {
    Struck,
    RowClosed(Row),
    Lost(u32),
}

impl Row {
    // Before any event.
    pub fn first() -> Row
        ensures { result ≡ record { number = 1; cells = 0 } }
    {
        Row {
            number: 1,
            cells: 0,
        }
    }

    fn follow(&mut self, event: SheetEvent) -> Step
        ensures value { result ≡ row_step event self.old }
        ensures after { self.new ≡ row_after event self.old }
    {
        let row = *self;
        match event {
            SheetEvent::Struck(_) => {
                self.cells = row.cells.saturating_add(1);
                Step::Struck
            }
            SheetEvent::LineEnd | SheetEvent::SheetEnd => {
                self.number = row.number.saturating_add(1);
                self.cells = 0;
                Step::RowClosed(row)
            }
        }
    }
}

// The count since which the open run is lost, if it is.
fn lost_since<O: FarSighted>(bench: &LookBench<O>) -> Option<u32>
    ensures { LostLaw (LookStands O.Observer.rule O.Observer.rest) bench.now result }
{
    match bench.look() {
        Ok(Sight::Lost(count)) => Some(count),
        Ok(Sight::Safe(_) | Sight::Open) => None,
        Err(_) => None,
    }
}

// Reads the event that a line of input is, takes it, and tells what came of it. A refusal leaves bench and row.
pub fn take_line<O: FarSighted + Observer<Event = SheetEvent>>(
    bench: &mut LookBench<O>,
    row: &mut Row,
    line: &[u8],
) -> Result<Step, TakeRefusal>
    ensures { LineLaw (LookStands O.Observer.rule O.Observer.rest) bench.old row.old line.now result bench.new row.new }
{
    let event = SheetEvent::read(line)?;
    bench.take(event)?;
    if let Some(count) = lost_since(bench) {
        return Ok(Step::Lost(count));
    }
    Ok(row.follow(event))
}
