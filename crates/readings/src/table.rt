// Which events the names of a text are of. An enum of its own, since the second reading shares nothing with the library's but the kinds' names.
#[derive(Clone, Copy)]
pub enum Names {
    Sheet,
    Machine,
}

// A line of the table: the letter of a kind, the first line of a text's report, and the text.
#[derive(Clone, Copy)]
pub struct Entry<'a> {
    pub names: Names,
    pub answer: &'a [u8],
    pub text: &'a [u8],
}

impl<'a> Entry<'a> {
    // No `TryFrom`, since there is nothing to tell of a line that is no entry.
    pub fn of(line: &'a [u8]) -> Option<Entry<'a>> {
        let (names, rest) = match line {
            [b's', b' ', rest @ ..] => (Names::Sheet, rest),
            [b'm', b' ', rest @ ..] => (Names::Machine, rest),
            _ => return None,
        };
        let colon = rest.windows(2).position(|pair| pair == b": ".as_slice())?;
        Some(Entry {
            names,
            answer: &rest[..colon],
            text: &rest[colon + 2..],
        })
    }
}
