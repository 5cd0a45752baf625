ghost use Rattle.std.specs.Prelude.{◌≡◌, ◌≤◌, count_by, MatchOption};
ghost use Rattle.rules.specs.Limits.{counts, most, limit_refusal, Exceeds};

use crate::refusal::RuleRefusal;
use formulas::Word;

// What a rule may have only so many of. A closure in its place would travel with a number and a refusal, and contracts name a limit as a value.
#[derive(Clone, Copy)]
pub(crate) enum Limit {
    Nodes = 48,
    Temporal = 12,
}

impl Limit {
    fn counts(self, word: Word) -> bool
        ensures { result ≡ counts self word }
    {
        match self {
            Limit::Nodes => word.is_node(),
            Limit::Temporal => word.is_temporal(),
        }
    }

    fn most(self) -> usize
        ensures { result ≡ most self }
    {
        self as usize
    }

    // Why a rule with more is refused.
    pub(crate) fn refusal(self) -> RuleRefusal
        ensures { result ≡ limit_refusal self }
    {
        match self {
            Limit::Nodes => RuleRefusal::TooManyNodes,
            Limit::Temporal => RuleRefusal::TooManyTemporal,
        }
    }

    // The first word that is one too many.
    pub(crate) fn first_over(self, words: &[Word]) -> Option<usize>
        ensures { MatchOption result (count_by (counts self) words.now ≤ most self) (λ i. Exceeds (counts self) (most self) words.now i) }
    {
        words
            .iter()
            .enumerate()
            .filter(|(_, word)| self.counts(**word))
            .nth(self.most())
            .map(|(i, _)| i)
    }
}
