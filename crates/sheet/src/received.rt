// The blocks of bytes that were received: they are read, and never written.
ghost use Rattle.std.specs.Prelude.{◌≡◌};
ghost use Rattle.sheet.specs.ChunkLaws.{wholes_bounded};
ghost use Rattle.sheet.specs.Chunks.{wholes, room_of};

use crate::holder::ReadBlocks;
use crate::memory::{capacity, copy_block};
use modes::refusal::Refusal;

// Holds the whole blocks of the bytes, and at most 4,096. A type beside the memory holder, since shared bytes cannot be written.
#[derive(Drop)]
pub struct ReceivedHolder<'a> {
    bytes: &'a [u8],
}

impl<'a> ReceivedHolder<'a> {
    pub fn new(bytes: &'a [u8]) -> ReceivedHolder<'a>
        ensures { result.bytes.now ≡ bytes.now }
    {
        ReceivedHolder { bytes }
    }
}

impl<'a> ReadBlocks for ReceivedHolder<'a> {
    ghost list = { λ h. wholes h.bytes.now };

    ghost room = { λ h. room_of h.bytes.now };

    ghost bounded = { λ h. wholes_bounded h.bytes.now };

    fn count(&self) -> usize {
        capacity(self.bytes)
    }

    fn limit(&self) -> usize {
        self.count()
    }

    fn get(&self, k: usize, out: &mut [u8]) -> Result<(), Refusal> {
        copy_block(self.bytes, capacity(self.bytes), k, out)
    }
}
