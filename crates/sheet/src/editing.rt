// Edits: only the blocks that an edit alters or drops are worked. They are opened, altered and sealed anew, and the sum
// gives up what they added and takes what they add.
ghost use Rattle.std.specs.Prelude.{◌≡◌, ◌-◌, ◌*◌, ◌<◌, ◌≤◌, length};
ghost use Rattle.sheet.specs.Calls.{under};
ghost use Rattle.sheet.specs.Edits.{altered, edited};
ghost use Rattle.sheet.specs.Laying.{laid_byte, laid_block, part_total, resealed, with_place, Resealed, laid_edit, Workable};

use crate::held::{add_block, drop_to, held_block, put_block};
use crate::holder::{ReadBlocks, WriteBlocks};
use crate::state::{State, block_count};
use modes::mask::{Mask, xor_blocks};
use permutation::Permutation;
use std::array;

// What an edit makes of a text: `bytes` from `at` on, and `length` bytes in all.
#[derive(Clone, Copy)]
pub struct Edit<'a> {
    pub at: usize,
    pub bytes: &'a [u8],
    pub length: usize,
}

impl<'a> Edit<'a> {
    // Byte i of the padded text afterwards, where `old` stood.
    fn byte(self, i: usize, old: u8) -> u8
        ensures { result ≡ laid_byte self.entry.at self.entry.bytes.now self.entry.length i old }
    {
        if i > self.length {
            return 0x00;
        }
        if i == self.length {
            return 0x80;
        }
        i.checked_sub(self.at)
            .and_then(|j| self.bytes.get(j))
            .copied()
            .unwrap_or(old)
    }

    // The padded block which i others stand before, afterwards, where `plain` stood.
    fn block(self, i: usize, plain: [u8; 32]) -> [u8; 32]
        requires { i < 4096 }
        ensures { result ≡ laid_block self.entry.at self.entry.bytes.now self.entry.length i plain }
    {
        array::from_fn(|j| self.byte(32 * i + j, plain[j]))
    }
}

// What the blocks after the first `from`, up to number `to`, add to the sum over all, from the mask that the first
// `from` come to.
fn part_adds<K: Permutation, R: ReadBlocks>(start: Mask, h: &R, from: usize, to: usize) -> [u8; 32]
    requires { (from ≤ to) × (to ≤ length (R.ReadBlocks.list h.now)) }
    ensures { result ≡ part_total K.Permutation.forth start.bytes (R.ReadBlocks.list h.now) from (to - from) }
{
    let count = h.count();
    let mut mask = start;
    let mut sum = [0u8; 32];
    for k in from..to {
        let even = mask.stepped().stepped();
        let block = held_block(h, k + 1);
        let more = if k + 1 == count {
            block // the last is added bare
        } else {
            even.encipher::<K>(block)
        };
        let added = xor_blocks(sum, more);
        mask = even;
        sum = added;
    }
    sum
}

// Seals the block which i others stand before anew, at its mask, or adds it where there is none.
fn reseal_block<K: Permutation, H: WriteBlocks>(odd: Mask, h: &mut H, i: usize, edit: Edit<'_>)
    requires { (i ≤ length (H.ReadBlocks.list h.old)) × (i < H.ReadBlocks.room h.old) }
    ensures after { H.ReadBlocks.list h.new ≡ with_place (H.ReadBlocks.list h.old) i (resealed K.Permutation.forth K.Permutation.back odd.bytes edit.entry.at edit.entry.bytes.now edit.entry.length (H.ReadBlocks.list h.old) i) }
    ensures same_room { H.ReadBlocks.room h.new ≡ H.ReadBlocks.room h.old }
{
    if i < h.count() {
        let plain = odd.decipher::<K>(held_block(h, i + 1));
        let block = odd.encipher::<K>(edit.block(i, plain));
        put_block(h, i + 1, block);
    } else {
        let block = odd.encipher::<K>(edit.block(i, [0; 32]));
        add_block(h, block);
    }
}

// Seals the blocks after the first `from`, up to number `to`, anew, from the mask that the first `from` come to.
fn reseal<K: Permutation, H: WriteBlocks>(
    start: Mask,
    h: &mut H,
    from: usize,
    to: usize,
    edit: Edit<'_>,
)
    requires { (from ≤ to) × ((from ≤ length (H.ReadBlocks.list h.old)) × (to ≤ H.ReadBlocks.room h.old)) }
    ensures changed { Resealed K.Permutation.forth K.Permutation.back start.bytes edit.entry.at edit.entry.bytes.now edit.entry.length from to (H.ReadBlocks.list h.old) (H.ReadBlocks.list h.new) }
    ensures same_room { H.ReadBlocks.room h.new ≡ H.ReadBlocks.room h.old }
{
    let mut mask = start;
    for i in from..to {
        let odd = mask.stepped();
        reseal_block::<K, H>(odd, h, i, edit);
        mask = odd.stepped();
    }
}

impl State {
    // Works an edit: the blocks after the first at / 32 change, up to number `old_end` of the blocks before and up to
    // `new_end` of those after, and blocks beyond the new text are dropped. Both ends hang on the call, not on the edit.
    pub(crate) fn edited<K: Permutation, H: WriteBlocks>(
        self,
        h: &mut H,
        edit: Edit<'_>,
        old_end: usize,
        new_end: usize,
    ) -> State
        requires { Workable self (H.ReadBlocks.list h.old) (H.ReadBlocks.room h.old) edit.at edit.bytes.now edit.length old_end new_end }
        ensures value { result ≡ edited (under K.Permutation.forth K.Permutation.back self) (laid_edit (under K.Permutation.forth K.Permutation.back self) self (H.ReadBlocks.list h.old) edit.entry.at edit.entry.bytes.now edit.entry.length new_end) self (H.ReadBlocks.list h.old) }
        ensures after { H.ReadBlocks.list h.new ≡ altered (under K.Permutation.forth K.Permutation.back self) (laid_edit (under K.Permutation.forth K.Permutation.back self) self (H.ReadBlocks.list h.old) edit.entry.at edit.entry.bytes.now edit.entry.length new_end) (H.ReadBlocks.list h.old) }
        ensures same_room { H.ReadBlocks.room h.new ≡ H.ReadBlocks.room h.old }
    {
        let from = edit.at / 32;
        let start = self.mask::<K>().at(2 * from, 0);
        let given = part_adds::<K, H>(start, h, from, old_end);
        reseal::<K, H>(start, h, from, new_end, edit);
        drop_to(h, block_count(edit.length));
        let taken = part_adds::<K, H>(start, h, from, new_end);
        let change = xor_blocks(given, taken);
        State {
            length: edit.length,
            sum: xor_blocks(self.sum, change),
            ..self
        }
    }
}
