// What is known by a number of its own.
#![tactic(auto)]

ghost use Rattle.std.specs.Prelude.{◌≡◌, ℕ};

// A value that is known by a number, which no other value of its type has. An enum says `self as u8` itself, since a cast takes no type parameter.
pub trait Numbered: Copy {
    ghost number: { Self → ℕ };

    fn number(self) -> u8
        ensures { result ≡ number self };

    ghost apart: { (x y : Self) → number x ≡ number y → x ≡ y };
}
