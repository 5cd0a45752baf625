ghost use Rattle.sheets.specs.Ports.{flowing, hammered};

use events::{Action, Cell, MachineEvent, SheetEvent};
use observers::{Port, Turning};

// Cells to themselves, a line end to a blank, a sheet end to none: the same text at any width.
#[derive(Clone, Copy)]
pub struct Flow;

impl Turning for Flow {
    type Above = SheetEvent;

    type Under = SheetEvent;

    ghost turning = { λ _ e. flowing e };

    fn turn(&self, e: SheetEvent) -> Option<SheetEvent> {
        match e {
            SheetEvent::Struck(cell) => Some(SheetEvent::Struck(cell)),
            SheetEvent::LineEnd => Some(SheetEvent::Struck(Cell::blank())),
            SheetEvent::SheetEnd => None,
        }
    }
}

// A strike to its cell, a feed to a line end or a sheet end, the rest to none.
#[derive(Clone, Copy)]
pub struct Hammer;

impl Turning for Hammer {
    type Above = MachineEvent;

    type Under = SheetEvent;

    ghost turning = { λ _ e. hammered e };

    fn turn(&self, e: MachineEvent) -> Option<SheetEvent> {
        match e.action() {
            Action::Strike(cell) => Some(SheetEvent::Struck(cell)),
            Action::FeedLine => Some(SheetEvent::LineEnd),
            Action::FeedSheet => Some(SheetEvent::SheetEnd),
            Action::Park | Action::Jam | Action::Cover => None,
        }
    }
}

pub type FlowPort<O> = Port<Flow, O>;

pub type HammerPort<O> = Port<Hammer, O>;
