// What the program writes.
ghost use Rattle.std.specs.Prelude.{◌≡◌, take};

use super::RECORD_BYTES;

// A record's bytes, and how many they are: memory of a fixed size, since nothing allocates, and zeros after the record (`RecordWritten`).
#[derive(Clone, Copy)]
pub struct ProgramOutput {
    pub bytes: [u8; RECORD_BYTES],
    pub count: usize,
}

impl ProgramOutput {
    // The bytes that are written; no more than there are.
    pub fn record(&self) -> &[u8]
        ensures { result.now ≡ take self.now.count self.now.bytes }
    {
        &self.bytes[..self.count.min(RECORD_BYTES)]
    }
}
