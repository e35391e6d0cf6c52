// What a sheet is sealed and opened under: three byte strings that always go together.
ghost use Rattle.std.specs.Prelude.{◌≡◌, [], ◌∷◌};
ghost use Rattle.modes.specs.Keys.{key_of, nonce_of, bad_key, bad_nonce};
ghost use Rattle.modes.specs.Refusals.{answer};
ghost use Rattle.sheet.specs.Standing.{Keyable};

use modes::keys::{Key, Nonce};
use modes::refusal::Refusal;

#[derive(Clone, Copy)]
pub struct Context<'a> {
    pub key: &'a [u8],
    pub nonce: &'a [u8],
    pub label: &'a [u8],
}

// A key and a nonce handed in as slices. No method of the context: of a slice in a struct the check does not know that its
// entries are bytes. A pair, since a state has the two as fields of their own.
pub(crate) fn keys_from(key: &[u8], nonce: &[u8]) -> Result<(Key, Nonce), Refusal>
    ensures value { result ≡ answer (bad_key key.now ∷ bad_nonce nonce.now ∷ []) (key_of key.now, nonce_of nonce.now) }
    ensures keyed { Keyable key.now nonce.now }
{
    let key = Key::new(key)?;
    let nonce = Nonce::new(nonce)?;
    Ok((key, nonce))
}
