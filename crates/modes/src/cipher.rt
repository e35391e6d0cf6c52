// The tweakable cipher: a permutation between two copies of a mask.
ghost use Rattle.std.specs.Prelude.{◌≡◌, ◌+◌, ◌≤◌, [], ◌∷◌, ◌++◌, length, take, drop, IfOk};
ghost use Rattle.modes.specs.Cipher.{usage_bytes, header as header_of, base, masked, mask_of, tem as enciphered, tem_reverse as deciphered, tem_claims, tem_answer, reverse_answer};
ghost use Rattle.modes.specs.Masks.{mask};
ghost use Rattle.modes.specs.Refusals.{answer};

use crate::keys::{Key, Nonce, array_from};
use crate::mask::{Mask, xor_blocks};
use crate::refusal::{Layer, Reason, Refusal};
use permutation::Permutation;

// What a mask is made for, so that labels, texts and plates never share one.
#[derive(Clone, Copy)]
pub enum Usage {
    Label,
    Text,
    Plate,
}

impl Usage {
    fn bytes(self) -> [u8; 3]
        ensures { result ≡ usage_bytes self }
    {
        match self {
            Usage::Label => [0x00, 0x00, 0x00],
            Usage::Text => [0x40, 0x00, 0x00],
            Usage::Plate => [0x80, 0x00, 0x00],
        }
    }
}

// The block with the bytes from `at` on replaced by `part`. A function of its own: an array that was written to twice loses
// its length to the check.
fn placed(mut block: [u8; 32], at: usize, part: &[u8]) -> [u8; 32]
    requires { at + length part.now ≤ 32 }
    ensures { result ≡ take at block ++ (part.now ++ drop (at + length part.now) block) }
{
    block[at..at + part.len()].copy_from_slice(part);
    block
}

// Key, use and nonce, one after the other.
fn header(key: Key, usage: Usage, nonce: Nonce) -> [u8; 32]
    ensures { result ≡ header_of key.bytes usage nonce.bytes }
{
    let keyed = placed([0; 32], 0, &key.bytes);
    let used = placed(keyed, 16, &usage.bytes());
    placed(used, 19, &nonce.bytes)
}

impl Mask {
    // The mask (0, 0) of a key, a use and a nonce, which all others are stepped from.
    pub fn base<K: Permutation>(key: Key, usage: Usage, nonce: Nonce) -> Mask
        ensures { result.bytes ≡ base K.Permutation.forth key.bytes usage nonce.bytes }
    {
        let block = header(key, usage, nonce);
        Mask {
            bytes: xor_blocks(block, K::forward(block)),
        }
    }

    // The mask after i steps and j turns. Compiled by itself: inlined into the calls of a sheet, its loop takes three times
    // the instructions.
    #[inline(never)]
    pub fn at(self, i: usize, j: usize) -> Mask
        ensures { result.bytes ≡ mask i j self.bytes }
    {
        let mut m = self;
        for _k in 0..i {
            m = m.stepped();
        }
        for _k in 0..j {
            m = m.turned();
        }
        m
    }

    pub fn encipher<K: Permutation>(self, block: [u8; 32]) -> [u8; 32]
        ensures { result ≡ masked K.Permutation.forth self.bytes block }
    {
        xor_blocks(self.bytes, K::forward(xor_blocks(block, self.bytes)))
    }

    pub fn decipher<K: Permutation>(self, block: [u8; 32]) -> [u8; 32]
        ensures { result ≡ masked K.Permutation.back self.bytes block }
    {
        xor_blocks(self.bytes, K::backward(xor_blocks(block, self.bytes)))
    }
}

// What the tweakable cipher takes beside its key and a block: the use, the nonce, and the mask's steps and turns.
#[derive(Clone, Copy)]
pub struct Tweak<'a> {
    pub usage: Usage,
    pub nonce: &'a [u8],
    pub i: usize,
    pub j: usize,
}

// The mask and the block of a call of the tweakable cipher.
fn prepared<K: Permutation>(
    key: &[u8],
    tweak: Tweak<'_>,
    block: &[u8],
) -> Result<(Mask, [u8; 32]), Refusal>
    ensures { result ≡ answer (tem_claims key.now tweak.entry.nonce.now tweak.entry.i tweak.entry.j block.now) (mask_of (mask tweak.entry.i tweak.entry.j (base K.Permutation.forth key.now tweak.entry.usage tweak.entry.nonce.now)), block.now) }
{
    let Tweak { usage, nonce, i, j } = tweak;
    let key = Key::new(key)?;
    let nonce = Nonce::new(nonce)?;
    if i > 8191 || j > 2 || (i == 0 && j == 0) {
        return Err(Refusal::new(Layer::Cipher, Reason::MaskIndex, 0));
    }
    let bytes = array_from(block, Reason::BufferLength)?;
    Ok((Mask::base::<K>(key, usage, nonce).at(i, j), bytes))
}

// The tweakable cipher at mask (i, j): its reverse at the same key and tweak undoes it.
pub fn tem<K: Permutation>(key: &[u8], tweak: Tweak<'_>, block: &[u8]) -> Result<[u8; 32], Refusal>
    ensures value { result ≡ tem_answer K.Permutation.forth key.now tweak.entry.usage tweak.entry.nonce.now tweak.entry.i tweak.entry.j block.now }
    ensures undone { IfOk result (λ y. deciphered K.Permutation.forth K.Permutation.back key.now tweak.entry.usage tweak.entry.nonce.now tweak.entry.i tweak.entry.j y ≡ block.now) }
{
    let (mask, bytes) = prepared::<K>(key, tweak, block)?;
    Ok(mask.encipher::<K>(bytes))
}

// The reverse of the tweakable cipher, which in its turn is undone by that.
pub fn tem_reverse<K: Permutation>(
    key: &[u8],
    tweak: Tweak<'_>,
    block: &[u8],
) -> Result<[u8; 32], Refusal>
    ensures value { result ≡ reverse_answer K.Permutation.forth K.Permutation.back key.now tweak.entry.usage tweak.entry.nonce.now tweak.entry.i tweak.entry.j block.now }
    ensures undone { IfOk result (λ y. enciphered K.Permutation.forth key.now tweak.entry.usage tweak.entry.nonce.now tweak.entry.i tweak.entry.j y ≡ block.now) }
{
    let (mask, bytes) = prepared::<K>(key, tweak, block)?;
    Ok(mask.decipher::<K>(bytes))
}
