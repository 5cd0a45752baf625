ghost use Rattle.std.specs.Prelude.{◌≡◌, nat_lt};
ghost use Rattle.sheets.specs.Lines.{fits};
ghost use Rattle.sheets.specs.Rulers.{RulerMade, ruler_number};
ghost use Rattle.std.proofs.Common.{rules};

use crate::ruler::Ruler;
use events::SheetEvent;
use numbered::Numbered;
use observers::{FarSighted, Observer, Outlook};

// Why no ruler is made.
#[derive(Clone, Copy, PartialEq, Eq, Debug)]
pub enum RulerRefusal {
    WidthNot1To100 = 24,
}

impl Numbered for RulerRefusal {
    ghost number = { ruler_number };

    ghost apart = { Prim.search rules };

    fn number(self) -> u8 {
        self as u8
    }
}

impl Ruler {
    pub fn new(width: u32) -> Result<Ruler, RulerRefusal>
        ensures { RulerMade width result }
    {
        if !(1..=100).contains(&width) {
            return Err(RulerRefusal::WidthNot1To100);
        }
        Ok(Ruler { width, cells: 0 })
    }

    // Whether a line was too long.
    fn over(&self) -> bool
        ensures { result ≡ nat_lt self.now.width self.now.cells }
    {
        self.cells > self.width
    }
}

impl Observer for Ruler {
    type Event = SheetEvent;

    ghost rule = { λ s t. fits s.width 0 t };

    ghost rest = { λ s t. fits s.width s.cells t };

    fn take(&mut self, e: SheetEvent) {
        if !self.over() {
            self.cells = match e {
                SheetEvent::Struck(_) => self.cells + 1,
                SheetEvent::LineEnd | SheetEvent::SheetEnd => 0,
            };
        }
    }

    fn mark(&self) -> bool {
        !self.over()
    }

    fn restart(&mut self) {
        self.cells = 0;
    }
}

impl FarSighted for Ruler {
    fn outlook(&self) -> Outlook {
        if self.over() {
            Outlook::Lost
        } else {
            Outlook::Open
        }
    }
}
