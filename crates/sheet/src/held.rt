// Blocks of a holder that are known to be there, or to have room.
ghost use Rattle.std.specs.Prelude.{◌≡◌, ◌<◌, ◌≤◌, length, take};
ghost use Rattle.sheet.specs.Holders.{block as block_of, with_block, with_more};

use crate::holder::{ReadBlocks, WriteBlocks};

// Block k.
pub(crate) fn held_block<R: ReadBlocks>(h: &R, k: usize) -> [u8; 32]
    requires { (0 < k) × (k ≤ length (R.ReadBlocks.list h.now)) }
    ensures { result ≡ block_of (R.ReadBlocks.list h.now) k }
{
    h.block(k).unwrap()
}

// One block more.
pub(crate) fn add_block<H: WriteBlocks>(h: &mut H, block: [u8; 32])
    requires { length (H.ReadBlocks.list h.old) < H.ReadBlocks.room h.old }
    ensures after { H.ReadBlocks.list h.new ≡ with_more (H.ReadBlocks.list h.old) block }
    ensures same_room { H.ReadBlocks.room h.new ≡ H.ReadBlocks.room h.old }
{
    h.add(&block).unwrap();
}

// Another block in the place of block k.
pub(crate) fn put_block<H: WriteBlocks>(h: &mut H, k: usize, block: [u8; 32])
    requires { (0 < k) × (k ≤ length (H.ReadBlocks.list h.old)) }
    ensures after { H.ReadBlocks.list h.new ≡ with_block (H.ReadBlocks.list h.old) k block }
    ensures same_room { H.ReadBlocks.room h.new ≡ H.ReadBlocks.room h.old }
{
    h.put(k, &block).unwrap();
}

// Keeps the first `count` blocks.
pub(crate) fn drop_to<H: WriteBlocks>(h: &mut H, count: usize)
    requires { count ≤ length (H.ReadBlocks.list h.old) }
    ensures after { H.ReadBlocks.list h.new ≡ take count (H.ReadBlocks.list h.old) }
    ensures same_room { H.ReadBlocks.room h.new ≡ H.ReadBlocks.room h.old }
{
    for _k in count..h.count() {
        h.drop_last().unwrap();
    }
}
