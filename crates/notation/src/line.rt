ghost use Rattle.std.specs.Prelude.{◌≡◌, ℕ, List, Ok, Result};
ghost use Rattle.notation.specs.declared.refusal.LineRefusal.{LineRefusal};

use crate::refusal::LineRefusal;
use events::Kind;

// A kind whose events are written on lines: `means` holds of a line and of what reading it answers, and of nothing else. Contracts above cite
// `written` and `means` side by side, since a member that pairs them would be a third one to keep equal to both.
pub trait Notation: Kind {
    ghost written: { Self → List ℕ };

    ghost means: { List ℕ → Result Self LineRefusal → Type 0 };

    fn read(line: &[u8]) -> Result<Self, LineRefusal>
        ensures { means line.now result };

    ghost back: { (x : Self) → means (written x) (Ok x) };

    ghost only: { (l : List ℕ) (x : Self) → means l (Ok x) → l ≡ written x };

    ghost once: { (l : List ℕ) (r s : Result Self LineRefusal) → means l r → means l s → r ≡ s };
}
