ghost use Rattle.std.specs.Prelude.{◌≡◌};
ghost use Rattle.script.specs.Seats.{called, SeatTold};

// The four benches.
#[derive(Clone, Copy)]
pub(crate) enum Seat {
    Ruler,
    Hammer,
    First,
    Second,
}

const SEATS: [Seat; 4] = [Seat::Ruler, Seat::Hammer, Seat::First, Seat::Second];

impl Seat {
    // Its name and a space.
    fn called(self) -> &'static [u8]
        ensures { result.now ≡ called self }
    {
        match self {
            Seat::Ruler => b"ruler ",
            Seat::Hammer => b"hammer ",
            Seat::First => b"first ",
            Seat::Second => b"second ",
        }
    }
}

// The bench that a line names, and what stands after its name and a space.
pub(crate) fn read_seat(line: &[u8]) -> Option<(Seat, &[u8])>
    ensures { SeatTold line.now result }
{
    for seat in SEATS {
        if let Some(act) = line.strip_prefix(seat.called()) {
            return Some((seat, act));
        }
    }
    None
}
