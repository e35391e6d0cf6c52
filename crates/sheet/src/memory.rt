// Blocks in memory that the caller lends.
ghost use Rattle.std.specs.Prelude.{◌≡◌, ℕ, ◌-◌, ◌<◌, false, length, is_ok, if◌then◌else◌, slice_index};
ghost use Rattle.sheet.specs.ChunkLaws.{held_bounded};
ghost use Rattle.sheet.specs.Chunks.{held, room_of, overwritten};
ghost use Rattle.sheet.specs.Lent.{lent_bytes, lent_list, lent_room};
ghost use Rattle.sheet.specs.Holders.{block as block_of, place_answer, add_answer, drop_answer, with_block, with_more, without_last};

use crate::checking::{check_left, check_place, check_room};
use crate::holder::{ReadBlocks, WriteBlocks};
use modes::refusal::Refusal;

// Its limit is what the bytes have room for, and at most 4,096. The bytes are lent, so the count stands beside them.
#[derive(Drop)]
pub struct MemoryHolder<'a> {
    bytes: &'a mut [u8],
    // As told at its making: a count above the limit counts as the limit.
    count: usize,
}

// How many blocks the bytes have room for.
pub(crate) fn capacity(bytes: &[u8]) -> usize
    ensures value { result ≡ room_of bytes.now }
    ensures fit { (i : ℕ) → slice_index bytes.now i < 256 }
{
    (bytes.len() / 32).min(4096)
}

// Copies block k of those that `count` tells of.
pub(crate) fn copy_block(
    bytes: &[u8],
    count: usize,
    k: usize,
    out: &mut [u8],
) -> Result<(), Refusal>
    ensures value { result ≡ place_answer (held count bytes.now) k out.old }
    ensures copied { out.new ≡ (if is_ok result then block_of (held count bytes.now) k else out.old) }
{
    check_place(count.min(capacity(bytes)), k, out)?;
    out.copy_from_slice(&bytes.as_chunks::<32>().0[k - 1]);
    Ok(())
}

// Writes the block that i others stand before.
// By its bounds: of what a slice ends as, `as_chunks_mut` says nothing.
fn overwrite(bytes: &mut [u8], i: usize, block: &[u8])
    requires { (i < room_of bytes.old) × (length block.now ≡ 32) }
    ensures { bytes.new ≡ overwritten bytes.old i block.now }
{
    let at = 32 * i;
    bytes[at..at + 32].copy_from_slice(block);
}

impl<'a> MemoryHolder<'a> {
    pub fn new(bytes: &'a mut [u8], count: usize) -> MemoryHolder<'a>
        ensures list { lent_list result ≡ held count bytes.old }
        ensures room { lent_room result ≡ room_of bytes.old }
        ensures bytes { lent_bytes result ≡ bytes.old }
        ensures tied { result.bytes.ghost_name ≡ bytes.entry.ghost_name }
    {
        MemoryHolder { bytes, count }
    }
}

impl<'a> ReadBlocks for MemoryHolder<'a> {
    ghost list = { lent_list };

    ghost room = { lent_room };

    ghost bounded = { λ h. held_bounded h.count (lent_bytes h) };

    fn count(&self) -> usize {
        self.count.min(capacity(self.bytes))
    }

    fn limit(&self) -> usize {
        capacity(self.bytes)
    }

    fn get(&self, k: usize, out: &mut [u8]) -> Result<(), Refusal> {
        copy_block(self.bytes, self.count, k, out)
    }
}

// Only the bytes of the block that is put or added change, and the bytes stay those that were lent.
impl<'a> WriteBlocks for MemoryHolder<'a> {
    fn put(&mut self, k: usize, block: &[u8]) -> Result<(), Refusal>
        ensures value { result ≡ place_answer (lent_list self.old) k block.now }
        ensures after { lent_list self.new ≡ (if is_ok result then with_block (lent_list self.old) k block.now else lent_list self.old) }
        ensures same_room { lent_room self.new ≡ lent_room self.old }
        ensures untouched { is_ok result ≡ false → self.new ≡ self.old }
        ensures bytes { lent_bytes self.new ≡ (if is_ok result then overwritten (lent_bytes self.old) (k - 1) block.now else lent_bytes self.old) }
        ensures tied { self.new.bytes.ghost_name ≡ self.old.bytes.ghost_name }
    {
        check_place(self.count(), k, block)?;
        overwrite(self.bytes, k - 1, block);
        Ok(())
    }

    fn add(&mut self, block: &[u8]) -> Result<(), Refusal>
        ensures value { result ≡ add_answer (lent_room self.old) (lent_list self.old) block.now }
        ensures after { lent_list self.new ≡ (if is_ok result then with_more (lent_list self.old) block.now else lent_list self.old) }
        ensures same_room { lent_room self.new ≡ lent_room self.old }
        ensures untouched { is_ok result ≡ false → self.new ≡ self.old }
        ensures bytes { lent_bytes self.new ≡ (if is_ok result then overwritten (lent_bytes self.old) (length (lent_list self.old)) block.now else lent_bytes self.old) }
        ensures tied { self.new.bytes.ghost_name ≡ self.old.bytes.ghost_name }
    {
        check_room(self, block)?;
        let count = self.count();
        overwrite(self.bytes, count, block);
        self.count = count + 1;
        Ok(())
    }

    fn drop_last(&mut self) -> Result<(), Refusal>
        ensures value { result ≡ drop_answer (lent_list self.old) }
        ensures after { lent_list self.new ≡ (if is_ok result then without_last (lent_list self.old) else lent_list self.old) }
        ensures same_room { lent_room self.new ≡ lent_room self.old }
        ensures untouched { is_ok result ≡ false → self.new ≡ self.old }
        ensures bytes { lent_bytes self.new ≡ lent_bytes self.old }
        ensures tied { self.new.bytes.ghost_name ≡ self.old.bytes.ghost_name }
    {
        check_left(self)?;
        let count = self.count();
        self.count = count - 1;
        Ok(())
    }
}
