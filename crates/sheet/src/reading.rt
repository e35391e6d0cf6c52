// Reading: only the blocks that the bytes lie in are opened.
ghost use Rattle.std.specs.Prelude.{◌≡◌, ℕ, ◌+◌, ◌-◌, ◌*◌, ◌/◌, ◌%◌, ◌<◌, ◌≤◌, length, is_ok, if◌then◌else◌, slice_index};
ghost use Rattle.sheet.specs.Calls.{read_answer, read_bytes, tag_answer, under};
ghost use Rattle.modes.specs.Cipher.{masked};
ghost use Rattle.sheet.specs.Holders.{block as block_of};
ghost use Rattle.sheet.specs.Holding.{opened_byte};

use crate::held::held_block;
use crate::holder::ReadBlocks;
use crate::state::State;
use modes::mask::Mask;
use modes::plate::tag_of;
use modes::refusal::Refusal;
use permutation::Permutation;

// Of a buffer for the bytes from `at` on, the part that the block of the bytes from `from` on fills.
fn fill_from(out: &mut [u8], at: usize, from: usize, plain: [u8; 32])
    requires { (at < from + 32) × ((from ≤ at + length out.old) × ((from ≤ 131072) × (at ≤ 131072))) }
    ensures inside { (i : ℕ) → i < length out.old → from ≤ at + i → at + i < from + 32 → slice_index out.new i ≡ slice_index plain (at + i - from) }
    ensures before { (i : ℕ) → at + i < from → slice_index out.new i ≡ slice_index out.old i }
{
    let lo = from.saturating_sub(at);
    let hi = (from + 32 - at).min(out.len());
    let skipped = at.saturating_sub(from);
    out[lo..hi].copy_from_slice(&plain[skipped..skipped + (hi - lo)]);
}

// Fills what the block after the first k has of the bytes from `at` on; a block that lies before them is not opened.
fn visit<K: Permutation, R: ReadBlocks>(mask: Mask, h: &R, k: usize, at: usize, out: &mut [u8])
    requires { (k < length (R.ReadBlocks.list h.now)) × ((32 * k ≤ at + length out.old) × (32 * k ≤ 131072)) }
    ensures inside { (i : ℕ) → i < length out.old → 32 * k ≤ at + i → at + i < 32 * k + 32 → slice_index out.new i ≡ slice_index (masked K.Permutation.back mask.bytes (block_of (R.ReadBlocks.list h.now) (k + 1))) (at + i - 32 * k) }
    ensures before { (i : ℕ) → at + i < 32 * k → slice_index out.new i ≡ slice_index out.old i }
{
    if at < 32 * k + 32 {
        let plain = mask.decipher::<K>(held_block(h, k + 1));
        fill_from(out, at, 32 * k, plain);
    }
}

// Fills a buffer with the opened bytes from `at` on, under the masks that `base` is the first of.
fn copy_out<K: Permutation, R: ReadBlocks>(base: Mask, h: &R, at: usize, out: &mut [u8])
    requires { at + length out.old < 32 * length (R.ReadBlocks.list h.now) }
    ensures { (i : ℕ) → i < length out.old → slice_index out.new i ≡ opened_byte K.Permutation.back base.bytes (R.ReadBlocks.list h.now) (at + i) }
{
    let count = h.count();
    let mut mask = base;
    for k in 0..(at + out.len()).div_ceil(32).min(count) {
        let odd = mask.stepped();
        visit::<K, R>(odd, h, k, at, out);
        mask = odd.stepped();
    }
}

impl State {
    // Copies bytes out from a position, as many as the buffer holds.
    pub(crate) fn read<K: Permutation, R: ReadBlocks>(
        self,
        h: &R,
        at: usize,
        out: &mut [u8],
    ) -> Result<(), Refusal>
        ensures value { result ≡ read_answer self (R.ReadBlocks.list h.now) at (length out.old) }
        ensures copied { out.new ≡ (if is_ok result then read_bytes (under K.Permutation.forth K.Permutation.back self) self (R.ReadBlocks.list h.now) at (length out.old) else out.old) }
    {
        self.check_range(h, at, out.len())?;
        let base = self.mask::<K>();
        copy_out::<K, R>(base, h, at, out);
        Ok(())
    }

    pub(crate) fn tag<K: Permutation>(self) -> [u8; 16]
        ensures { result ≡ tag_answer (under K.Permutation.forth K.Permutation.back self) self }
    {
        let base = self.mask::<K>();
        let m = self.blocks();
        tag_of(base.at(2 * m - 1, 1).encipher::<K>(self.sum))
    }
}
