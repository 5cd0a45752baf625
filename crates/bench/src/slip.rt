ghost use Rattle.std.specs.Prelude.{◌≡◌};

// A token for one run, with the numbers of its bench and of the run. It is not `Drop`: it goes back by close or by write off.
pub struct Slip {
    pub(crate) bench: u16,
    pub(crate) run: u16,
}

impl Slip {
    pub fn bench(&self) -> u16
        ensures { result ≡ self.now.bench }
    {
        self.bench
    }

    pub fn run(&self) -> u16
        ensures { result ≡ self.now.run }
    {
        self.run
    }
}

// Ends a slip at no bench.
pub fn write_off(slip: Slip) {
    let Slip { bench: _, run: _ } = slip;
}

// Ends a list of slips at no bench.
pub fn write_off_all(mut held: Vec<Slip>) {
    while let Some(slip) = held.pop() {
        write_off(slip);
    }
    held.destroy_empty();
}
