// Keys, nonces and tags: byte strings of a fixed length.
ghost use Rattle.std.specs.Prelude.{◌≡◌, [], ◌∷◌};
ghost use Rattle.modes.specs.Keys.{key_of, nonce_of, bad_length, bad_key, bad_nonce, bad_tag};
ghost use Rattle.modes.specs.Refusals.{answer};

use crate::refusal::{Layer, Reason, Refusal};

// Two types, and not one over the length, so that neither is taken for the other.
#[derive(Clone, Copy)]
pub struct Key {
    pub bytes: [u8; 16],
}

#[derive(Clone, Copy)]
pub struct Nonce {
    pub bytes: [u8; 13],
}

// The bytes as an array; a slice of another length is declined for `reason`.
pub(crate) fn array_from<const N: usize>(bytes: &[u8], reason: Reason) -> Result<[u8; N], Refusal>
    ensures { result ≡ answer (bad_length N reason bytes.now ∷ []) bytes.now }
{
    bytes
        .try_into()
        .map_err(|_| Refusal::new(Layer::Cipher, reason, 0))
}

impl Key {
    // `new` and no `TryFrom`: callers have this call, and a second way in would say the same.
    pub fn new(key: &[u8]) -> Result<Key, Refusal>
        ensures { result ≡ answer (bad_key key.now ∷ []) (key_of key.now) }
    {
        let bytes = array_from(key, Reason::KeyLength)?;
        Ok(Key { bytes })
    }
}

impl Nonce {
    pub const ZERO: Nonce = Nonce { bytes: [0; 13] };

    pub fn new(nonce: &[u8]) -> Result<Nonce, Refusal>
        ensures { result ≡ answer (bad_nonce nonce.now ∷ []) (nonce_of nonce.now) }
    {
        let bytes = array_from(nonce, Reason::NonceLength)?;
        Ok(Nonce { bytes })
    }
}

// A tag handed in as a slice.
pub fn tag_from(tag: &[u8]) -> Result<[u8; 16], Refusal>
    ensures { result ≡ answer (bad_tag tag.now ∷ []) tag.now }
{
    array_from(tag, Reason::TagLength)
}
