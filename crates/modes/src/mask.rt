// Masks: blocks that are stepped along, so that each block's mask comes from the last at a constant cost.
ghost use Rattle.std.specs.Prelude.{◌≡◌};
ghost use Rattle.permutation.specs.Blocks.{◌⊕◌};
ghost use Rattle.modes.specs.Masks.{doubled as doubling, step, turn};

use std::array;

// Doubling in the field of 256 elements whose polynomial is 1A3.
pub fn doubled(b: u8) -> u8
    ensures { result ≡ doubling b }
{
    // The top bit selects A3 by a product: no branch depends on a secret.
    b.wrapping_mul(2) ^ (b / 128 * 0xA3)
}

pub fn xor_blocks(x: [u8; 32], y: [u8; 32]) -> [u8; 32]
    ensures { result ≡ x ⊕ y }
{
    array::from_fn(|i| x[i] ^ y[i])
}

#[derive(Clone, Copy)]
pub struct Mask {
    pub bytes: [u8; 32],
}

impl Mask {
    pub fn stepped(self) -> Mask
        ensures { result.bytes ≡ step self.bytes }
    {
        let old = self.bytes;
        let mut bytes: [u8; 32] = array::from_fn(|i| old[(i + 1) % 32]);
        bytes[31] = doubled(old[0]);
        bytes[28] ^= old[0];
        bytes[29] ^= old[0];
        Mask { bytes }
    }

    pub fn turned(self) -> Mask
        ensures { result.bytes ≡ turn self.bytes }
    {
        Mask {
            bytes: xor_blocks(self.stepped().bytes, self.bytes),
        }
    }
}
