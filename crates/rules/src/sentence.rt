ghost use Rattle.std.specs.Prelude.{◌≡◌, ◌<◌, [], ◌∷◌, ◌++◌, slice_index_or};
ghost use Rattle.arrayvec.specs.ArrayVec.{array_vec_len};
ghost use Rattle.rules.specs.Reading.{Understanding};
ghost use Rattle.rules.specs.Limits.{Limited};

use crate::limits::Limit;
use crate::refusal::{Fault, RuleRefusal};
use arrayvec::ArrayVec;
use formulas::Word;
use grammar::{Misread, Tree, parse};

// How many bytes a rule text has at most.
pub(crate) const LONGEST: usize = 256;

// The words of a text and their places, in two rows, since the parser takes a slice of words alone, for which pairs would have to be copied; and
// the place where the text ends.
#[derive(Drop)]
pub(crate) struct Sentence {
    pub(crate) words: ArrayVec<Word, LONGEST>,
    pub(crate) places: ArrayVec<usize, LONGEST>,
    pub(crate) end: usize,
    ghost paired: { array_vec_len places ≡ array_vec_len words },
}

impl Sentence {
    pub(crate) fn new(end: usize) -> Sentence
        ensures words { result.words.items ≡ [] }
        ensures places { result.places.items ≡ [] }
        ensures end { result.end ≡ end }
    {
        Sentence {
            words: ArrayVec::new(),
            places: ArrayVec::new(),
            end,
        }
    }

    pub(crate) fn push(&mut self, word: Word, place: usize)
        requires { array_vec_len self.old.words < LONGEST }
        ensures words { self.new.words.items ≡ self.old.words.items ++ word ∷ [] }
        ensures places { self.new.places.items ≡ self.old.places.items ++ place ∷ [] }
        ensures end { self.new.end ≡ self.old.end }
    {
        self.words.push(word);
        self.places.push(place);
    }

    // The refusal of the word with this index, or of the end of the text where there is none.
    fn fault(&self, refusal: RuleRefusal, at: usize) -> Fault
        ensures refusal { result.refusal ≡ refusal }
        ensures place { result.place ≡ slice_index_or self.now.places.items at self.now.end }
    {
        Fault {
            refusal,
            place: self.places.get(at).copied().unwrap_or(self.end),
        }
    }

    // Refuses the first word that is one more than the limit allows.
    fn check(&self, limit: Limit) -> Result<(), Fault>
        ensures { Limited limit self.now.words.items self.now.places.items self.now.end result }
    {
        match limit.first_over(&self.words) {
            Some(at) => Err(self.fault(limit.refusal(), at)),
            None => Ok(()),
        }
    }

    #[tactic(auto, using(crate::specs::Outcomes::no_rule, crate::specs::Outcomes::too_many_nodes, crate::specs::Outcomes::too_many_temporal, crate::proofs::Once::node_count, crate::proofs::Once::operator_count, crate::proofs::Moved::grown_formed))]
    pub(crate) fn understand(&self) -> Result<Tree, Fault>
        ensures { Understanding self.now.words.items self.now.places.items self.now.end result }
    {
        let tree = match parse(&self.words) {
            Ok(tree) => tree,
            Err(Misread::NoRule(at)) => return Err(self.fault(RuleRefusal::NoRule, at)),
            // There are no more words than bytes.
            Err(Misread::TooManyWords) => unreachable!(),
        };
        self.check(Limit::Nodes)?;
        self.check(Limit::Temporal)?;
        Ok(tree)
    }
}
