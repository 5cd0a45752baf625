ghost use Rattle.std.specs.Prelude.{◌≡◌, ◌<◌, ◌≤◌, MatchResult};
ghost use Rattle.events.specs.Rooms.{room};
ghost use Rattle.events.specs.Machines.{machine_name, machine_number, machine_name_at, machine_text, machine_example};
ghost use Rattle.std.proofs.Common.{rules};

use crate::cell::Cell;
use crate::kind::{Kind, NoName};
use crate::word::MachineEvent;
use numbered::Numbered;

// The names of machine events, with their numbers.
#[derive(Clone, Copy, PartialEq, Eq, Debug)]
pub enum MachineName {
    Strike = 0,
    Feed = 1,
    Park = 2,
    Jam = 3,
    Cover = 4,
}

// What the embosser did.
#[derive(Clone, Copy, PartialEq, Eq, Debug)]
pub enum Action {
    Strike(Cell),
    FeedLine,
    FeedSheet,
    Park,
    Jam,
    Cover,
}

impl MachineName {
    // How many values the bits 28 to 0 of an event of this name can have.
    pub(crate) fn room(self) -> u32
        ensures { result ≡ room (machine_number self) }
    {
        match self {
            MachineName::Strike => 64,
            MachineName::Feed => 2,
            MachineName::Park | MachineName::Jam | MachineName::Cover => 1 << 29,
        }
    }
}

impl From<MachineEvent> for MachineName {
    ghost from_gives = { λ e s. s ≡ machine_name e };

    fn from(value: MachineEvent) -> MachineName {
        MachineName::try_from((value.word >> 29) as u8).unwrap()
    }
}

impl TryFrom<u8> for MachineName {
    type Error = NoName;

    ghost try_from_gives = { λ n r. MatchResult r (λ s. (n < 5) × (s ≡ machine_name_at n)) (λ _. 5 ≤ n) };

    fn try_from(value: u8) -> Result<MachineName, NoName> {
        match value {
            0 => Ok(MachineName::Strike),
            1 => Ok(MachineName::Feed),
            2 => Ok(MachineName::Park),
            3 => Ok(MachineName::Jam),
            4 => Ok(MachineName::Cover),
            _ => Err(NoName),
        }
    }
}

impl Numbered for MachineName {
    ghost number = { machine_number };

    ghost apart = { Prim.search rules };

    fn number(self) -> u8 {
        self as u8
    }
}

impl Kind for MachineEvent {
    type Name = MachineName;

    const NAMES: u8 = 5;

    ghost NAMES = { 5 };

    ghost number = { λ e. machine_number (machine_name e) };

    ghost text = { λ n. machine_text (machine_name_at n) };

    ghost example = { λ n. machine_example (machine_name_at n) };

    ghost some = { Prim.search rules };

    ghost few = { Prim.search rules };

    ghost below = { Prim.search rules };

    ghost labels = { Prim.search rules };

    ghost apart = { Prim.search rules };

    ghost samples = { Prim.search rules };

    ghost known = { Prim.search rules };

    ghost named = { Prim.search rules };

    ghost names = { Prim.search rules };

    fn text<'a>(name: MachineName) -> &'a str {
        match name {
            MachineName::Strike => "strike",
            MachineName::Feed => "feed",
            MachineName::Park => "park",
            MachineName::Jam => "jam",
            MachineName::Cover => "cover",
        }
    }

    // The event of this name with no other bit set.
    #[tactic(auto, using(crate::proofs::Same::same_event))]
    fn example(name: MachineName) -> MachineEvent {
        MachineEvent {
            word: u32::from(name.number()) << 29,
        }
    }
}
