ghost use Rattle.notation.specs.Digits.{DigitTold};

// The value of a digit of a base: 0 to 9, and from ten on a small letter. By literals as match cases, and small letters alone, so not by a digit
// test of the library.
pub(crate) fn digit(byte: u8, base: u8) -> Option<u8>
    ensures { DigitTold base byte result }
{
    let value = match byte {
        b'0'..=b'9' => byte - b'0',
        b'a'.. => byte - b'a' + 10,
        _ => return None,
    };
    (value < base).then_some(value)
}
