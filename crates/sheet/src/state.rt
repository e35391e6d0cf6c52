// What an open sheet carries beside its holder.
ghost use Rattle.std.specs.Prelude.{◌≡◌};
ghost use Rattle.modes.specs.declared.cipher.Usage.TheVariants.{Text};
ghost use Rattle.modes.specs.Cipher.{base};
ghost use Rattle.sheet.specs.Sealing.{blocks_in};

use modes::cipher::Usage;
use modes::keys::{Key, Nonce};
use modes::mask::Mask;
use permutation::Permutation;

// The longest text.
pub const MAX_TEXT: usize = 131071;

#[derive(Clone, Copy)]
pub struct State {
    pub key: Key,
    pub nonce: Nonce,
    // The length of the text, in bytes.
    pub length: usize,
    // What the label adds to the sum.
    pub label: [u8; 32],
    pub sum: [u8; 32],
}

// How many blocks a text has, its padding included.
pub fn block_count(length: usize) -> usize
    ensures { result ≡ blocks_in length }
{
    length / 32 + 1
}

impl State {
    // How many blocks the sheet has.
    pub(crate) fn blocks(self) -> usize
        ensures { result ≡ blocks_in self.length }
    {
        block_count(self.length)
    }

    // The mask that those of the text's blocks and of the tag are stepped from.
    pub(crate) fn mask<K: Permutation>(self) -> Mask
        ensures { result.bytes ≡ base K.Permutation.forth self.key.bytes Text self.nonce.bytes }
    {
        Mask::base::<K>(self.key, Usage::Text, self.nonce)
    }
}
