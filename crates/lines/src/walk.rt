ghost use Rattle.std.specs.Prelude.{◌≤◌, length};
ghost use Rattle.std.specs.Iterator.{YieldsFirstRef, item_count};
ghost use Rattle.lines.specs.Lines.{Lined};
ghost use Rattle.lines.specs.Walks.{lines_left};

use crate::line::cut_line;

// The lines of a text that are still to come.
#[derive(Drop)]
pub struct Lines<'a> {
    rest: &'a [u8],
}

impl<'a> Lines<'a> {
    #[tactic(auto, using(crate::proofs::Walking::lined_of, crate::proofs::Walking::few))]
    pub fn new(text: &'a [u8]) -> Lines<'a>
        ensures lined { Lined text.now (lines_left result) }
        ensures few { length (lines_left result) ≤ length text.now }
    {
        Lines { rest: text }
    }
}

impl<'a> Iterator for Lines<'a> {
    type Item = &'a [u8];

    ghost next_gives = { YieldsFirstRef lines_left };

    ghost remaining = { item_count lines_left };

    #[tactic(auto, using(crate::proofs::Walking::taken, crate::proofs::Walking::ended))]
    fn next(&mut self) -> Option<&'a [u8]> {
        if self.rest.is_empty() {
            return None;
        }
        let (line, after) = cut_line(self.rest);
        self.rest = after;
        Some(line)
    }
}
