ghost use Rattle.std.specs.Prelude.{◌≡◌};
ghost use Rattle.grammar.specs.declared.misread.Misread.TheVariants.{NoRule};

// Why words are not read: there are more than 256, or from the word with this index on they can't become a rule.
#[derive(Clone, Copy)]
pub enum Misread {
    TooManyWords,
    NoRule(usize),
}

// The index of the first word from which on the words can't become a rule.
#[derive(Clone, Copy)]
pub(crate) struct Stray {
    pub(crate) at: usize,
}

impl From<Stray> for Misread {
    ghost from_gives = { λ s m. m ≡ NoRule s.at };

    fn from(stray: Stray) -> Misread {
        Misread::NoRule(stray.at)
    }
}
