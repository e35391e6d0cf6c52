// Label sums: a byte string block by block through the tweakable cipher, at a constant cost a block.
ghost use Rattle.std.specs.Prelude.{◌≡◌, [], ◌∷◌, if◌then◌else◌};
ghost use Rattle.modes.specs.Masks.{times, turn};
ghost use Rattle.modes.specs.Refusals.{answer};
ghost use Rattle.modes.specs.Sums.{block_at, is_padded, chain, too_long, label_sum, label_answer};

use crate::cipher::Usage;
use crate::keys::{Key, Nonce};
use crate::mask::{Mask, xor_blocks};
use crate::refusal::{Layer, Reason, Refusal};
use permutation::Permutation;

// The longest label or plate.
pub const MAX_LABEL: usize = 4096;

// The first block of a byte string, padded where that is shorter.
pub fn first_block(text: &[u8]) -> [u8; 32]
    ensures { result ≡ block_at text.now 1 }
{
    if let Some(block) = text.first_chunk() {
        return *block;
    }
    let mut block = [0; 32];
    block[..text.len()].copy_from_slice(text);
    block[text.len()] = 0x80;
    block
}

// The mask at the end of n bytes: one turn on, or two where they are padded.
fn ended(mask: Mask, n: usize) -> Mask
    ensures { result.bytes ≡ times (if is_padded n then 2 else 1) turn mask.bytes }
{
    let once = mask.turned();
    if n == 0 || n % 32 != 0 {
        once.turned()
    } else {
        once
    }
}

// A byte string under the masks that `base` is the first of.
pub(crate) fn chained<K: Permutation>(base: Mask, text: &[u8]) -> [u8; 32]
    ensures { result ≡ chain K.Permutation.forth base.bytes text.now }
{
    let inner = text.len().saturating_sub(1) / 32;
    let (front, last) = text.split_at(32 * inner);
    let (blocks, _) = front.as_chunks::<32>();
    let mut mask = base;
    let mut sum = [0u8; 32];
    for block in blocks {
        // Named before they are assigned: a call's result may not be laid where an argument lies.
        let next = mask.stepped();
        let added = xor_blocks(sum, next.encipher::<K>(*block));
        mask = next;
        sum = added;
    }
    let total = xor_blocks(sum, first_block(last));
    ended(mask, text.len()).encipher::<K>(total)
}

// Declines a label or plate that is too long.
pub fn check_length(text: &[u8]) -> Result<(), Refusal>
    ensures { result ≡ answer (too_long text.now ∷ []) tt }
{
    if text.len() > MAX_LABEL {
        return Err(Refusal::new(Layer::Cipher, Reason::LabelLength, 0));
    }
    Ok(())
}

// The label sum of a label that is not too long.
pub fn sum_of<K: Permutation>(key: Key, label: &[u8]) -> [u8; 32]
    ensures { result ≡ label_sum K.Permutation.forth key.bytes label.now }
{
    if label.is_empty() {
        return [0; 32];
    }
    chained::<K>(Mask::base::<K>(key, Usage::Label, Nonce::ZERO), label)
}

// The label sum, which ties a sheet to its label.
pub fn label_sum<K: Permutation>(key: &[u8], label: &[u8]) -> Result<[u8; 32], Refusal>
    ensures { result ≡ label_answer K.Permutation.forth key.now label.now }
{
    let key = Key::new(key)?;
    check_length(label)?;
    Ok(sum_of::<K>(key, label))
}
