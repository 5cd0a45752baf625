ghost use Rattle.output.specs.Writing.{Sound, Finished};

use std::alloc::AllocError;

// What was put so far, and whether memory ran short; once it did nothing more is put. The bytes stay beside the want of memory, since their room
// is promised on both ways.
#[derive(Drop)]
pub struct Writer {
    pub(crate) bytes: Vec<u8>,
    pub(crate) memory: Result<(), AllocError>,
}

impl Writer {
    // Puts behind the bytes that are given, with the room that they have.
    pub fn over(bytes: Vec<u8>) -> Writer
        ensures { Sound bytes result }
    {
        Writer {
            bytes,
            memory: Ok(()),
        }
    }

    // All that was put, unless memory ran short.
    pub fn finish(self) -> Result<Vec<u8>, AllocError>
        ensures { Finished self result }
    {
        self.memory?;
        Ok(self.bytes)
    }
}
