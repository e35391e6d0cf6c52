// Block holders: what keeps a sheet's blocks.
ghost use Rattle.std.specs.Prelude.{◌≡◌, ℕ, false, List, length, is_ok, if◌then◌else◌};
ghost use Rattle.sheet.specs.Holders.{block as block_of, Bounded, Sound, block_answer, place_answer, add_answer, drop_answer, with_block, with_more, without_last};

use modes::refusal::Refusal;

// A holder that is read: a list of blocks, counted from 1, and the most that it can keep.
pub trait ReadBlocks {
    ghost list: { Self → List (List ℕ) };

    ghost room: { Self → ℕ };

    ghost bounded: { (h : Self) → Bounded (list h) (room h) };

    fn count(&self) -> usize
        ensures value { result ≡ length (list self.now) }
        ensures bytes { Sound (list self.now) };

    fn limit(&self) -> usize
        ensures { result ≡ room self.now };

    // Copies block k into a buffer of 32 bytes.
    // A slice, and no array of 32 bytes, here and for the writing calls: a buffer of another length is declined by 12,
    // and a narrower type would ask more of callers.
    fn get(&self, k: usize, out: &mut [u8]) -> Result<(), Refusal>
        ensures value { result ≡ place_answer (list self.now) k out.old }
        ensures copied { out.new ≡ (if is_ok result then block_of (list self.now) k else out.old) };

    // Block k, by value.
    fn block(&self, k: usize) -> Result<[u8; 32], Refusal>
        ensures { result ≡ block_answer (list self.now) k }
    {
        let mut bytes = [0u8; 32];
        self.get(k, &mut bytes)?;
        Ok(bytes)
    }
}

// A holder that is also written. A declined call leaves the whole holder as it was.
// That and the room are clauses of each call, since callers and implementations take clauses by name, and each call has
// other facts beside them.
pub trait WriteBlocks: ReadBlocks {
    // Replaces block k.
    fn put(&mut self, k: usize, block: &[u8]) -> Result<(), Refusal>
        ensures value { result ≡ place_answer (Self.ReadBlocks.list self.old) k block.now }
        ensures after { Self.ReadBlocks.list self.new ≡ (if is_ok result then with_block (Self.ReadBlocks.list self.old) k block.now else Self.ReadBlocks.list self.old) }
        ensures same_room { Self.ReadBlocks.room self.new ≡ Self.ReadBlocks.room self.old }
        ensures untouched { is_ok result ≡ false → self.new ≡ self.old };

    // Appends a block.
    fn add(&mut self, block: &[u8]) -> Result<(), Refusal>
        ensures value { result ≡ add_answer (Self.ReadBlocks.room self.old) (Self.ReadBlocks.list self.old) block.now }
        ensures after { Self.ReadBlocks.list self.new ≡ (if is_ok result then with_more (Self.ReadBlocks.list self.old) block.now else Self.ReadBlocks.list self.old) }
        ensures same_room { Self.ReadBlocks.room self.new ≡ Self.ReadBlocks.room self.old }
        ensures untouched { is_ok result ≡ false → self.new ≡ self.old };

    // Removes the last block.
    fn drop_last(&mut self) -> Result<(), Refusal>
        ensures value { result ≡ drop_answer (Self.ReadBlocks.list self.old) }
        ensures after { Self.ReadBlocks.list self.new ≡ (if is_ok result then without_last (Self.ReadBlocks.list self.old) else Self.ReadBlocks.list self.old) }
        ensures same_room { Self.ReadBlocks.room self.new ≡ Self.ReadBlocks.room self.old }
        ensures untouched { is_ok result ≡ false → self.new ≡ self.old };
}
