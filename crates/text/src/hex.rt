// Bytes as hexadecimal digits, two a byte, the high one first.
ghost use Rattle.std.specs.Prelude.{◌≡◌, ◌/◌, ◌%◌, ◌<◌, length, IfOk, Some, None, string_bytes, MatchResult, slice_index};
ghost use Rattle.text.specs.declared.hex.HexError.TheVariants.{NotDigit, Memory};
ghost use Rattle.text.specs.Hex.{digit_of, char_of, hex_of, Spells, Unspelt};

use std::alloc::{AllocError, AllocFailed, Global};

// Why a text gives no bytes.
#[derive(Clone, Copy)]
pub enum HexError {
    OddLength,
    // The place of a byte that is no digit.
    NotDigit(usize),
    Memory,
}

// Two impls, and by hand: the library has two types for it, and clauses name the error that a `?` makes.
impl From<AllocError> for HexError {
    ghost from_gives = { λ _ r. r ≡ Memory };

    fn from(_e: AllocError) -> HexError {
        HexError::Memory
    }
}

impl<T: Drop> From<AllocFailed<T>> for HexError {
    ghost from_gives = { λ _ r. r ≡ Memory };

    fn from(_e: AllocFailed<T>) -> HexError {
        HexError::Memory
    }
}

// The value of a digit, of either case.
pub fn hex_digit(b: u8) -> Option<u8>
    ensures { result ≡ digit_of b }
{
    char::from(b).to_digit(16).map(|digit| digit as u8)
}

// The lower-case digit of a value.
fn hex_char(value: u8) -> char
    requires { value < 16 }
    ensures is { result ≡ char_of value }
    ensures ascii { result < 128 }
{
    char::from_digit(u32::from(value), 16).unwrap()
}

// The two digits of a byte.
pub fn hex_pair(b: u8) -> (char, char)
    ensures is { result ≡ (char_of (b / 16), char_of (b % 16)) }
    ensures ascii { (result.0 < 128) × (result.1 < 128) }
{
    (hex_char(b / 16), hex_char(b % 16))
}

// The digits of bytes, in lower case.
pub fn to_hex(heap: Global, bytes: &[u8]) -> Result<String, AllocError>
    ensures { IfOk result (λ s. string_bytes s ≡ hex_of bytes.now) }
{
    let mut text = String::new(heap);
    for byte in bytes {
        let (high, low) = hex_pair(*byte);
        text.push(high)?;
        text.push(low)?;
    }
    Ok(text)
}

// The value of a digit, which stands at `place` of a text.
fn digit_at(place: usize, b: u8) -> Result<u8, HexError>
    ensures cases { MatchResult result (λ d. digit_of b ≡ Some d) (λ e. e ≡ NotDigit place) }
    ensures refused { MatchResult result (λ d. d < 16) (λ _. digit_of b ≡ None) }
{
    hex_digit(b).ok_or(HexError::NotDigit(place))
}

// The bytes that a text spells.
pub fn parse_hex(heap: Global, text: &[u8]) -> Result<Vec<u8>, HexError>
    ensures { MatchResult result (λ v. Spells text.now v.items) (λ e. Unspelt text.now e) }
{
    let (pairs, rest) = text.as_chunks::<2>();
    if !rest.is_empty() {
        return Err(HexError::OddLength);
    }
    let mut bytes = Vec::new(heap);
    for (k, [high, low]) in pairs.iter().enumerate() {
        let high = digit_at(2 * k, *high)?;
        let low = digit_at(2 * k + 1, *low)?;
        bytes.push(16 * high + low)?;
    }
    Ok(bytes)
}
