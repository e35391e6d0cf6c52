// The MAC of plates, and the check of one.
ghost use Rattle.std.specs.Prelude.{◌≡◌, take};
ghost use Rattle.modes.specs.Sums.{same, plate_mac, mac_answer, check_answer, ExactlyItsMac};

use crate::cipher::Usage;
use crate::keys::{Key, Nonce, tag_from};
use crate::mask::Mask;
use crate::refusal::{Layer, Reason, Refusal};
use crate::sums::{chained, check_length};
use permutation::Permutation;

// Whether two byte strings agree. By a rule of the project a `for` over the elements with their index and no early end, as
// `==` may have: the time must not tell where they differ.
pub fn same_bytes<const N: usize>(left: [u8; N], right: [u8; N]) -> bool
    ensures { result ≡ same left.entry right.entry }
{
    let mut differing = 0u8;
    for (i, byte) in left.iter().enumerate() {
        differing |= *byte ^ right[i];
    }
    differing == 0
}

// A tag is the first half of a block.
pub fn tag_of(block: [u8; 32]) -> [u8; 16]
    ensures { result ≡ take 16 block }
{
    *block.first_chunk().unwrap()
}

fn mac<K: Permutation>(key: Key, plate: &[u8]) -> [u8; 16]
    ensures { result ≡ plate_mac K.Permutation.forth key.bytes plate.now }
{
    tag_of(chained::<K>(Mask::base::<K>(key, Usage::Plate, Nonce::ZERO), plate))
}

// The tag that a plate carries.
pub fn plate_mac<K: Permutation>(key: &[u8], plate: &[u8]) -> Result<[u8; 16], Refusal>
    ensures { result ≡ mac_answer K.Permutation.forth key.now plate.now }
{
    let key = Key::new(key)?;
    check_length(plate)?;
    Ok(mac::<K>(key, plate))
}

// Says yes exactly for the tag that `plate_mac` gives for this key and plate.
pub fn plate_check<K: Permutation>(key: &[u8], plate: &[u8], tag: &[u8]) -> Result<(), Refusal>
    ensures value { result ≡ check_answer K.Permutation.forth key.now plate.now tag.now }
    ensures exactly { ExactlyItsMac K.Permutation.forth key.now plate.now tag.now result }
{
    let key = Key::new(key)?;
    let tag = tag_from(tag)?;
    check_length(plate)?;
    if !same_bytes(tag, mac::<K>(key, plate)) {
        return Err(Refusal::new(Layer::Cipher, Reason::TagMismatch, 0));
    }
    Ok(())
}
