ghost use Rattle.std.specs.Prelude.{◌<◌, length};
ghost use Rattle.lines.specs.Lines.{Cut};

// The first line of a text without its line feed, and what follows the line feed.
pub fn cut_line(text: &[u8]) -> (&[u8], &[u8])
    ensures cut { Cut text.now result.0.now result.1.now }
    ensures less { 0 < length text.now → length result.1.now < length text.now }
{
    match text.iter().position(|byte| *byte == b'\n') {
        Some(n) => (&text[..n], &text[n + 1..]),
        None => (text, b""),
    }
}
