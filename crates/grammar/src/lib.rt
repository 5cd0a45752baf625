// Words become the formula of a rule, or the first word after which they can't be one is told.
#![tactic(auto)]

ghost use Rattle.grammar.specs.Parsing.{Parsed, OneFormula, OnePlace};

mod levels;
mod misread;
mod reader;
mod tree;

use formulas::Word;
pub use misread::Misread;
use reader::Reader;
pub use tree::Tree;

pub fn parse(words: &[Word]) -> Result<Tree, Misread>
    ensures parsed { Parsed words.now result }
    ensures one_formula { OneFormula words.now }
    ensures one_place { OnePlace words.now }
{
    if words.len() > 256 {
        return Err(Misread::TooManyWords);
    }
    let mut reader = Reader::new(words);
    reader.rule()?;
    if reader.at < words.len() {
        return Err(Misread::NoRule(reader.at));
    }
    Ok(reader.tree)
}
