ghost use Rattle.std.specs.Prelude.{◌≡◌};
ghost use Rattle.bench.specs.Calls.{open_count};

// The run that was opened last, with how many events it has: it is still open, or it has ended, as before the first opening.
#[derive(Clone, Copy)]
pub(crate) enum Run {
    Open(u32),
    Ended(u32),
}

impl Run {
    // How many events it has, while it is open.
    pub(crate) fn open_count(self) -> Option<u32>
        ensures { result ≡ open_count self }
    {
        match self {
            Run::Open(count) => Some(count),
            Run::Ended(_) => None,
        }
    }
}
