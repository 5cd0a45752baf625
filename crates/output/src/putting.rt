ghost use Rattle.std.specs.Prelude.{[], ◌∷◌, decimal};
ghost use Rattle.output.specs.Writing.{Wrote};

use crate::writer::Writer;
use itoa::Buffer;

impl Writer {
    pub fn put(&mut self, bytes: &[u8])
        ensures { Wrote self.old bytes.now self.new }
    {
        if self.memory.is_ok() {
            self.memory = self.bytes.extend_from_slice(bytes);
        }
    }

    pub fn put_byte(&mut self, byte: u8)
        ensures { Wrote self.old (byte ∷ []) self.new }
    {
        self.put(&[byte]);
    }

    // The number in decimal digits. One digit is put as it is, which takes half as long.
    #[tactic(auto, using(std::proofs::lemmas::Fmt::decimal_digit))]
    pub fn put_number(&mut self, n: usize)
        ensures { Wrote self.old (decimal n) self.new }
    {
        if n < 10 {
            return self.put_byte(b'0' + n as u8);
        }
        self.put(Buffer::new().format(n).as_bytes());
    }
}
