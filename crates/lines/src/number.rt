ghost use Rattle.lines.specs.Numerals.{NumberTold};

// The number that one to nine decimal digits write. A `for` over the digits: `parse` takes twice as long and more.
pub fn read_number(digits: &[u8]) -> Option<u32>
    ensures { NumberTold digits.now result }
{
    if digits.is_empty() || digits.len() > 9 {
        return None;
    }
    let mut number: u32 = 0;
    for byte in digits {
        match byte {
            b'0'..=b'9' => number = number * 10 + u32::from(*byte - b'0'),
            _ => return None,
        }
    }
    Some(number)
}
