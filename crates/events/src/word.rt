ghost use Rattle.std.specs.Prelude.{◌≡◌, ◌/◌, ◌%◌, ◌^◌, ◌<◌};
ghost use Rattle.events.specs.Rooms.{room};

use crate::cell::Cell;
use crate::machine::{Action, MachineName};
use crate::refusal::EventRefusal;

// What an embosser did, in 32 bits: bits 31 to 29 are its kind, and the bits that the kind does not use are zero.
// They are kept as they came, since `word` tells them all; `action` says them as an enum.
#[derive(Clone, Copy, PartialEq, Eq, Debug)]
pub struct MachineEvent {
    pub(crate) word: u32,
    ghost known: { word / 2 ^ 29 < 5 },
    ghost clean: { word % 2 ^ 29 < room (word / 2 ^ 29) },
}

impl MachineEvent {
    ghost use Rattle.events.specs.Machines.{MachineMade, action_of};

    // The event of a word; a `TryFrom<u32>` would be a second name for this call.
    pub fn new(word: u32) -> Result<MachineEvent, EventRefusal>
        ensures { MachineMade word result }
    {
        let kind = (word >> 29) as u8;
        let name = MachineName::try_from(kind).map_err(|_| EventRefusal::KindUnknown)?;
        if word % (1 << 29) < name.room() {
            Ok(MachineEvent { word })
        } else {
            Err(EventRefusal::BitNotZero)
        }
    }

    pub fn word(self) -> u32
        ensures { result ≡ self.word }
    {
        self.word
    }

    pub fn action(self) -> Action
        ensures { result ≡ action_of self }
    {
        match MachineName::from(self) {
            MachineName::Strike => Action::Strike(Cell::low(self.word)),
            MachineName::Feed => {
                if self.word % 2 == 0 {
                    Action::FeedLine
                } else {
                    Action::FeedSheet
                }
            }
            MachineName::Park => Action::Park,
            MachineName::Jam => Action::Jam,
            MachineName::Cover => Action::Cover,
        }
    }
}
