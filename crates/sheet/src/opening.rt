// Opening: the sum over a holder's blocks in one pass, two steps of the mask a block, and the padding of the last.
ghost use Rattle.std.specs.Prelude.{◌≡◌, ◌-◌, ◌*◌, ◌<◌, ◌≤◌, length, OnOk};
ghost use Rattle.modes.specs.Masks.{times, step};
ghost use Rattle.modes.specs.Sums.{xor_to};
ghost use Rattle.sheet.specs.Calls.{last_plain, open_answer, cipher_in};
ghost use Rattle.sheet.specs.Ciphers.{cipher_of};
ghost use Rattle.sheet.specs.Holders.{Sound};
ghost use Rattle.sheet.specs.Holding.{block_adds};
ghost use Rattle.sheet.specs.Sealing.{sum_of, tag_of as tag_over, text_end};
ghost use Rattle.sheet.specs.Standing.{Keyable};

use crate::context::{Context, keys_from};
use crate::held::held_block;
use crate::holder::ReadBlocks;
use crate::state::State;
use modes::cipher::Usage;
use modes::keys::{Key, Nonce, tag_from};
use modes::mask::{Mask, xor_blocks};
use modes::plate::{same_bytes, tag_of};
use modes::refusal::{Layer, Reason, Refusal};
use modes::sums::{check_length, sum_of};
use permutation::Permutation;

// Where the text ends in its last block: before the last byte that is not 00, if that is 80.
fn end_of_text(block: [u8; 32]) -> Option<usize>
    ensures { result ≡ text_end block }
{
    let end = block.iter().rposition(|byte| *byte != 0x00)?;
    (block[end] == 0x80).then_some(end)
}

// The mask that the blocks before the last come to, and what they add to the sum.
// Beside `part_adds`: it hands on the mask, and never meets the last block, which is added bare.
fn inner_total<K: Permutation, R: ReadBlocks>(base: Mask, h: &R, m: usize) -> (Mask, [u8; 32])
    requires { (0 < m) × (m ≤ length (R.ReadBlocks.list h.now)) }
    ensures mask { result.0.bytes ≡ times (2 * (m - 1)) step base.bytes }
    ensures sum { result.1 ≡ xor_to (block_adds K.Permutation.forth base.bytes (R.ReadBlocks.list h.now)) (m - 1) }
{
    let mut mask = base;
    let mut sum = [0u8; 32];
    for k in 0..m - 1 {
        let even = mask.stepped().stepped();
        let added = xor_blocks(sum, even.encipher::<K>(held_block(h, k + 1)));
        mask = even;
        sum = added;
    }
    (mask, sum)
}

// What opening finds of a holder's blocks before it judges them.
#[derive(Clone, Copy)]
struct Found {
    label: [u8; 32],
    sum: [u8; 32],
    tag: [u8; 16],
    // The last block, opened.
    plain: [u8; 32],
}

fn summed<K: Permutation, R: ReadBlocks>(
    key: Key,
    nonce: Nonce,
    label: &[u8],
    h: &R,
    m: usize,
) -> Found
    requires { (0 < m) × (m ≡ length (R.ReadBlocks.list h.now)) }
    ensures label { result.label ≡ (cipher_of K.Permutation.forth K.Permutation.back key.bytes nonce.bytes).label_sum label.now }
    ensures sum { result.sum ≡ sum_of (cipher_of K.Permutation.forth K.Permutation.back key.bytes nonce.bytes) label.now (R.ReadBlocks.list h.now) }
    ensures tag { result.tag ≡ tag_over (cipher_of K.Permutation.forth K.Permutation.back key.bytes nonce.bytes) label.now (R.ReadBlocks.list h.now) }
    ensures plain { result.plain ≡ last_plain (cipher_of K.Permutation.forth K.Permutation.back key.bytes nonce.bytes) (R.ReadBlocks.list h.now) }
{
    let label = sum_of::<K>(key, label);
    let base = Mask::base::<K>(key, Usage::Text, nonce);
    let (mask, inner) = inner_total::<K, R>(base, h, m);
    let last = held_block(h, m);
    let odd = mask.stepped();
    let sum = xor_blocks(label, xor_blocks(inner, last));
    Found {
        label,
        sum,
        tag: tag_of(odd.turned().encipher::<K>(sum)),
        plain: odd.decipher::<K>(last),
    }
}

impl State {
    // Opens what a holder has under a context and a tag.
    pub(crate) fn open<K: Permutation, R: ReadBlocks>(
        context: Context<'_>,
        tag: &[u8],
        h: &R,
    ) -> Result<State, Refusal>
        ensures keyed { Keyable context.entry.key.now context.entry.nonce.now }
        ensures bytes { OnOk result (Sound (R.ReadBlocks.list h.now)) }
        ensures value { result ≡ open_answer (cipher_in K.Permutation.forth K.Permutation.back context.entry) context.entry.key.now context.entry.nonce.now context.entry.label.now tag.now (R.ReadBlocks.list h.now) }
    {
        let (key, nonce) = keys_from(context.key, context.nonce)?;
        let tag = tag_from(tag)?;
        check_length(context.label)?;
        let m = h.count();
        if m == 0 || m > 4096 {
            return Err(Refusal::new(Layer::Sheet, Reason::BlockCount, 0));
        }
        let Found {
            label,
            sum,
            tag: right,
            plain,
        } = summed::<K, R>(key, nonce, context.label, h, m);
        if !same_bytes(tag, right) {
            return Err(Refusal::new(Layer::Sheet, Reason::TagMismatch, 0));
        }
        let end = end_of_text(plain).ok_or(Refusal::new(Layer::Sheet, Reason::Padding, 0))?;
        Ok(State {
            key,
            nonce,
            length: 32 * (m - 1) + end,
            label,
            sum,
        })
    }
}
