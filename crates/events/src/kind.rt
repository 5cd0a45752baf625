ghost use Rattle.std.specs.Prelude.{◌≡◌, ℕ, ◌<◌, ◌≤◌, List, Result, MatchOption, MatchResult};
ghost use Rattle.events.specs.Labels.{Label};

use numbered::Numbered;

// A number is the number of no name.
#[derive(Clone, Copy, PartialEq, Eq, Debug)]
pub struct NoName;

// A kind of events: each event has a name, and each number below `NAMES` is the number of a name, which has a text and a sample event.
// Above this crate a name is known by its number alone. Contracts there cite `NAMES` and `text` side by side, since a member that pairs
// them would be a third one to keep equal to both.
pub trait Kind: Copy {
    ghost use Rattle.events.specs.declared.kind.NoName.{NoName};

    type Name: Numbered + From<Self> + TryFrom<u8, Error = NoName>;

    const NAMES: u8;

    ghost NAMES: { ℕ };

    ghost number: { Self → ℕ };

    ghost text: { ℕ → List ℕ };

    ghost example: { ℕ → Self };

    fn text<'a>(name: Self::Name) -> &'a str
        ensures { result.now ≡ text (Self.Name.number name) };

    fn example(name: Self::Name) -> Self
        ensures { result ≡ example (Self.Name.number name) };

    ghost some: { 1 ≤ NAMES };

    ghost few: { NAMES ≤ 32 };

    ghost below: { (x : Self) → number x < NAMES };

    ghost labels: { (n : ℕ) → n < NAMES → Label (text n) };

    ghost apart: { (m n : ℕ) → m < NAMES → n < NAMES → text m ≡ text n → m ≡ n };

    ghost samples: { (n : ℕ) → n < NAMES → number (example n) ≡ n };

    ghost known: { (s : Self.Name) → Self.Name.number s < NAMES };

    ghost named: { (x : Self) (s : Self.Name) → Self.Name.from_gives x s → Self.Name.number s ≡ number x };

    ghost names: { (n : ℕ) (r : Result Self.Name NoName) → Self.Name.try_from_gives n r → MatchResult r (λ s. (n < NAMES) × (Self.Name.number s ≡ n)) (λ _. NAMES ≤ n) };

    final fn total() -> u8
        ensures { result ≡ NAMES }
    {
        Self::NAMES
    }

    final fn name(&self) -> u8
        ensures { result ≡ number self.now }
    {
        Self::Name::from(*self).number()
    }

    final fn label<'a>(n: u8) -> Option<&'a str>
        ensures { MatchOption result (NAMES ≤ n) (λ s. (n < NAMES) × (s.now ≡ text n)) }
    {
        let name = Self::Name::try_from(n).ok()?;
        Some(Self::text(name))
    }

    final fn sample(n: u8) -> Option<Self>
        ensures { MatchOption result (NAMES ≤ n) (λ x. (n < NAMES) × (x ≡ example n)) }
    {
        let name = Self::Name::try_from(n).ok()?;
        Some(Self::example(name))
    }
}
