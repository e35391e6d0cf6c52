// Hex digits of a key file or an option, and the bytes that they spell.
ghost use Rattle.std.specs.Prelude.{◌≡◌, MatchResult};
ghost use Rattle.text.specs.Hex.{Spells};
ghost use Rattle.vestmortar.specs.Digits.{failure_at, Misspells};

use crate::failure::Failure;
use crate::flag::Flag;
use std::alloc::Global;
use text::hex::{HexError, parse_hex};

// Where digits stand.
#[derive(Drop)]
pub enum Place {
    InKeyFile(String),
    After(Flag),
}

// What is wrong with digits there that spell no bytes.
fn hex_failure(error: HexError, place: Place) -> Failure
    ensures { result ≡ failure_at place error }
{
    match error {
        HexError::OddLength => Failure::OddDigits(place),
        HexError::NotDigit(_) => Failure::NotHex(place),
        HexError::Memory => Failure::Memory,
    }
}

// The bytes that the text spells, however many: the library judges that.
pub(crate) fn read_hex(heap: Global, text: &[u8], place: Place) -> Result<Vec<u8>, Failure>
    ensures { MatchResult result (λ v. Spells text.now v.items) (λ failure. Misspells text.now place failure) }
{
    parse_hex(heap, text).map_err(|error| hex_failure(error, place))
}
