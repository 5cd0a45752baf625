ghost use Rattle.std.specs.Prelude.{◌≡◌, ℕ};

// An operator is written as a byte, its sign, which no other operator of its sort has. The trait has the shape of `Numbered`, but a sign is the
// character that is read and shown, and no number by which an operator is known.
pub trait Operator: Copy {
    ghost sign: { Self → ℕ };

    fn sign(self) -> u8
        ensures { result ≡ sign self };

    ghost apart: { (x y : Self) → sign x ≡ sign y → x ≡ y };
}
