// The words of a case.
ghost use Rattle.std.specs.Prelude.{◌≡◌, ◌<◌, ◌≤◌, IfOk, MatchResult};
ghost use Rattle.text.specs.Hex.{Spells};
ghost use Rattle.vectors.specs.declared.case.Fault.TheVariants.{Malformed, Declined, Memory};
ghost use Rattle.vectors.specs.Lines.{Writes, ruled_byte as byte_by_rule, Ruled, usage_name};

use modes::cipher::Usage;
use modes::refusal::Refusal;
use std::alloc::{AllocError, AllocFailed, Global};
use std::array::TryFromSliceError;
use std::num::ParseIntError;
use text::hex::{HexError, parse_hex};

// Why a case has no value.
#[derive(Clone, Copy)]
pub enum Fault {
    Malformed,
    Declined(Refusal),
    Memory,
}

impl From<Refusal> for Fault {
    ghost from_gives = { λ e r. r ≡ Declined e };

    fn from(refusal: Refusal) -> Fault {
        Fault::Declined(refusal)
    }
}

impl From<HexError> for Fault {
    fn from(error: HexError) -> Fault {
        match error {
            HexError::Memory => Fault::Memory,
            _ => Fault::Malformed,
        }
    }
}

impl From<ParseIntError> for Fault {
    ghost from_gives = { λ _ r. r ≡ Malformed };

    fn from(_e: ParseIntError) -> Fault {
        Fault::Malformed
    }
}

impl From<TryFromSliceError> for Fault {
    ghost from_gives = { λ _ r. r ≡ Malformed };

    fn from(_e: TryFromSliceError) -> Fault {
        Fault::Malformed
    }
}

// Two impls, and by hand: the library has two types for it, and clauses name the error that a `?` makes.
impl From<AllocError> for Fault {
    ghost from_gives = { λ _ r. r ≡ Memory };

    fn from(_e: AllocError) -> Fault {
        Fault::Memory
    }
}

impl<T: Drop> From<AllocFailed<T>> for Fault {
    ghost from_gives = { λ _ r. r ≡ Memory };

    fn from(_e: AllocFailed<T>) -> Fault {
        Fault::Memory
    }
}

// Byte strings are in lower case, and the empty one is a dash.
pub(crate) fn bytes_of(heap: Global, word: &str) -> Result<Vec<u8>, Fault>
    ensures { IfOk result (λ v. Writes word.now v.items) }
{
    if word == "-" {
        return Ok(Vec::new(heap));
    }
    if word.is_empty() || word.bytes().any(|b| b.is_ascii_uppercase()) {
        return Err(Fault::Malformed);
    }
    Ok(parse_hex(heap, word.as_bytes())?)
}

// A byte string of just N bytes.
pub(crate) fn array_of<const N: usize>(heap: Global, word: &str) -> Result<[u8; N], Fault>
    ensures value { IfOk result (λ b. Writes word.now b) }
    ensures spelt { IfOk result (λ b. 0 < N → Spells word.now b) }
{
    let bytes = bytes_of(heap, word)?;
    Ok(<[u8; N]>::try_from(bytes.as_slice())?)
}

// The longest that a rule makes.
const MAX_RULED: usize = 1000000;

// A text or a label: a long one may be `~N:S`, which tells N bytes by a rule from S on.
pub(crate) fn long_bytes_of(heap: Global, word: &str) -> Result<Vec<u8>, Fault> {
    let Some(rule) = word.strip_prefix("~") else {
        return bytes_of(heap, word);
    };
    let (n, start) = rule.split_once(":").ok_or(Fault::Malformed)?;
    ruled_bytes(heap, number_up_to(n, MAX_RULED)?, number_up_to(start, 255)?)
}

fn ruled_byte(start: usize, i: usize) -> u8
    requires { (start < 256) × (i < 1000000) }
    ensures { result ≡ byte_by_rule start i }
{
    ((start + 31 * i + i / 32) % 256) as u8
}

fn ruled_bytes(heap: Global, n: usize, start: usize) -> Result<Vec<u8>, Fault>
    requires { (n ≤ 1000000) × (start < 256) }
    ensures { IfOk result (λ v. Ruled n start v.items) }
{
    Ok((0..n).map(|i| ruled_byte(start, i)).collect(heap)?)
}

pub(crate) fn number_of(word: &str) -> Result<usize, Fault> {
    // A sign is no digit, though `parse` takes one.
    if word.starts_with("+") {
        return Err(Fault::Malformed);
    }
    Ok(word.parse::<usize>()?)
}

pub(crate) fn number_up_to(word: &str, most: usize) -> Result<usize, Fault>
    ensures { IfOk result (λ n. n ≤ most) }
{
    let number = number_of(word)?;
    if number > most {
        return Err(Fault::Malformed);
    }
    Ok(number)
}

// A function and no `FromStr`: only the cipher's own crate could give its `Usage` one, and that crate reads no names.
pub(crate) fn usage_of(word: &str) -> Result<Usage, Fault>
    ensures { MatchResult result (λ u. word.now ≡ usage_name u) (λ e. e ≡ Malformed) }
{
    match word {
        "label" => Ok(Usage::Label),
        "text" => Ok(Usage::Text),
        "plate" => Ok(Usage::Plate),
        _ => Err(Fault::Malformed),
    }
}
