// Sealing: a text's blocks go into an empty holder, one pass, two steps of the mask a block.
ghost use Rattle.std.specs.Prelude.{◌≡◌, ◌+◌, ◌*◌, ◌/◌, ◌<◌, ◌≤◌, false, [], map, length, is_ok, if◌then◌else◌};
ghost use Rattle.std.specs.List.{range_with_len};
ghost use Rattle.modes.specs.Keys.{key_of, nonce_of};
ghost use Rattle.modes.specs.Masks.{times, step};
ghost use Rattle.modes.specs.Refusals.{answer};
ghost use Rattle.modes.specs.Sums.{xor_to};
ghost use Rattle.sheet.specs.Calls.{seal_claims, seal_answer, cipher_in};
ghost use Rattle.sheet.specs.Ciphers.{sealed_block, sealed_adds, cipher_of};
ghost use Rattle.sheet.specs.Sealing.{blocks_in, sealed, total};
ghost use Rattle.sheet.specs.Standing.{Keyable};

use crate::context::{Context, keys_from};
use crate::held::add_block;
use crate::holder::WriteBlocks;
use crate::state::{MAX_TEXT, State, block_count};
use modes::cipher::Usage;
use modes::keys::{Key, Nonce};
use modes::mask::{Mask, xor_blocks};
use modes::refusal::{Layer, Reason, Refusal};
use modes::sums::{check_length, first_block, sum_of};
use permutation::Permutation;

// Seals the blocks before the last; the mask that this comes to, and what they add to the sum.
fn seal_inner<K: Permutation, H: WriteBlocks>(
    base: Mask,
    text: &[u8],
    h: &mut H,
) -> (Mask, [u8; 32])
    requires { (H.ReadBlocks.list h.old ≡ []) × (length text.now / 32 < H.ReadBlocks.room h.old) }
    ensures mask { result.0.bytes ≡ times (2 * (length text.now / 32)) step base.bytes }
    ensures sum { result.1 ≡ xor_to (sealed_adds K.Permutation.forth base.bytes text.now) (length text.now / 32) }
    ensures after { H.ReadBlocks.list h.new ≡ map (sealed_block K.Permutation.forth base.bytes text.now) (range_with_len 1 (length text.now / 32)) }
    ensures same_room { H.ReadBlocks.room h.new ≡ H.ReadBlocks.room h.old }
{
    let mut mask = base;
    let mut sum = [0u8; 32];
    for plain in text.as_chunks::<32>().0 {
        let odd = mask.stepped();
        let block = odd.encipher::<K>(*plain);
        add_block(h, block);
        let even = odd.stepped();
        let added = xor_blocks(sum, even.encipher::<K>(block));
        mask = even;
        sum = added;
    }
    (mask, sum)
}

// Seals a text into an empty holder that has room for it; what its blocks add to the sum.
fn seal_blocks<K: Permutation, H: WriteBlocks>(
    key: Key,
    nonce: Nonce,
    text: &[u8],
    h: &mut H,
) -> [u8; 32]
    requires { (H.ReadBlocks.list h.old ≡ []) × (blocks_in (length text.now) ≤ H.ReadBlocks.room h.old) }
    ensures value { result ≡ total (cipher_of K.Permutation.forth K.Permutation.back key.bytes nonce.bytes) (sealed (cipher_of K.Permutation.forth K.Permutation.back key.bytes nonce.bytes) text.now) }
    ensures after { H.ReadBlocks.list h.new ≡ sealed (cipher_of K.Permutation.forth K.Permutation.back key.bytes nonce.bytes) text.now }
    ensures same_room { H.ReadBlocks.room h.new ≡ H.ReadBlocks.room h.old }
{
    let base = Mask::base::<K>(key, Usage::Text, nonce);
    let (mask, sum) = seal_inner::<K, H>(base, text, h);
    let (_, rest) = text.as_chunks::<32>();
    let last = first_block(rest);
    let block = mask.stepped().encipher::<K>(last);
    add_block(h, block);
    xor_blocks(sum, block)
}

// The sentences that seal is declined by; key and nonce where none is true.
fn check_seal<H: WriteBlocks>(
    context: Context<'_>,
    text: &[u8],
    h: &H,
) -> Result<(Key, Nonce), Refusal>
    ensures keyed { Keyable context.entry.key.now context.entry.nonce.now }
    ensures value { result ≡ answer (seal_claims context.entry.key.now context.entry.nonce.now context.entry.label.now text.now (H.ReadBlocks.room h.now) (H.ReadBlocks.list h.now)) (key_of context.entry.key.now, nonce_of context.entry.nonce.now) }
{
    let (key, nonce) = keys_from(context.key, context.nonce)?;
    check_length(context.label)?;
    if text.len() > MAX_TEXT {
        return Err(Refusal::new(Layer::Sheet, Reason::TextLength, 0));
    }
    if h.count() != 0 {
        return Err(Refusal::new(Layer::Sheet, Reason::BlockCount, 0));
    }
    if h.limit() < block_count(text.len()) {
        return Err(Refusal::new(Layer::Sheet, Reason::Limit, 0));
    }
    Ok((key, nonce))
}

impl State {
    // Seals a text: the holder comes to hold its sealed blocks.
    pub(crate) fn seal<K: Permutation, H: WriteBlocks>(
        context: Context<'_>,
        text: &[u8],
        h: &mut H,
    ) -> Result<State, Refusal>
        ensures keyed { Keyable context.entry.key.now context.entry.nonce.now }
        ensures value { result ≡ seal_answer (cipher_in K.Permutation.forth K.Permutation.back context.entry) context.entry.key.now context.entry.nonce.now context.entry.label.now text.now (H.ReadBlocks.room h.old) (H.ReadBlocks.list h.old) }
        ensures after { H.ReadBlocks.list h.new ≡ (if is_ok result then sealed (cipher_in K.Permutation.forth K.Permutation.back context.entry) text.now else H.ReadBlocks.list h.old) }
        ensures same_room { H.ReadBlocks.room h.new ≡ H.ReadBlocks.room h.old }
        ensures untouched { is_ok result ≡ false → h.new ≡ h.old }
    {
        let (key, nonce) = check_seal(context, text, h)?;
        let label = sum_of::<K>(key, context.label);
        let blocks = seal_blocks::<K, H>(key, nonce, text, h);
        Ok(State {
            key,
            nonce,
            length: text.len(),
            label,
            sum: xor_blocks(label, blocks),
        })
    }
}
