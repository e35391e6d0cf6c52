// The answer to a case.
ghost use Rattle.std.specs.Prelude.{◌≡◌, IfOk, Some};
ghost use Rattle.vectors.specs.Lines.{Values, answer_text};

use crate::case::{Fault, array_of, bytes_of, number_of, usage_of};
use crate::holders::{hold_case, note_case};
use crate::sheets::sheet_case;
use modes::cipher::{Tweak, tem, tem_reverse};
use modes::mask::{Mask, doubled};
use modes::plate::{plate_check, plate_mac};
use modes::refusal::Refusal;
use modes::sums::label_sum;
use permutation::Permutation;
use permutation::minalpher::{Minalpher, OneRound, ZeroRounds};
use permutation::words::RowWords;
use std::alloc::{AllocError, Global};
use std::fmt;
use text::hex::to_hex;
use text::words::Shown;

#[derive(Drop)]
pub enum Answer {
    // Hex digits, or what a case of sheets or of holders comes to.
    Value(String),
    Yes,
    Declined(Refusal),
    Malformed,
}

impl fmt::Display for Answer {
    ghost output = { λ a. Some (answer_text a) };

    fn fmt<W: fmt::Write>(&self, f: &mut fmt::Formatter<W>) -> fmt::Result {
        match self {
            Answer::Value(digits) => write!(f, "{digits}"),
            Answer::Yes => write!(f, "yes"),
            Answer::Declined(refusal) => {
                let shown = Shown(*refusal);
                write!(f, "declined {shown}")
            }
            Answer::Malformed => write!(f, "malformed"),
        }
    }
}

pub(crate) fn answer_line(heap: Global, line: &str) -> Result<Answer, AllocError> {
    value(heap, line).or_else(|fault| match fault {
        Fault::Malformed => Ok(Answer::Malformed),
        Fault::Declined(refusal) => Ok(Answer::Declined(refusal)),
        Fault::Memory => Err(AllocError),
    })
}

fn value(heap: Global, line: &str) -> Result<Answer, Fault> {
    let words: Vec<&str> = line.split(' ').collect(heap)?;
    match words.as_slice() {
        ["double", byte] => {
            let [byte] = array_of::<1>(heap, byte)?;
            shown(heap, &[doubled(byte)])
        }
        ["step", block] => shown(heap, &mask_of(heap, block)?.stepped().bytes),
        ["turn", block] => shown(heap, &mask_of(heap, block)?.turned().bytes),
        ["mask", i, j, block] => {
            let base = mask_of(heap, block)?;
            shown(heap, &base.at(number_of(i)?, number_of(j)?).bytes)
        }
        ["hold", size, count, rest @ ..] => {
            hold_case(heap, size, count, rest).map(Answer::Value)
        }
        ["note", size, count, depth, rest @ ..] => {
            note_case(heap, size, count, depth, rest).map(Answer::Value)
        }
        [name, "matrices", rest @ ..] => value_by::<Minalpher>(heap, name, rest),
        [name, "rows", rest @ ..] => value_by::<RowWords>(heap, name, rest),
        [name, "one", rest @ ..] => value_by::<OneRound>(heap, name, rest),
        [name, "zero", rest @ ..] => value_by::<ZeroRounds>(heap, name, rest),
        _ => Err(Fault::Malformed),
    }
}

fn shown(heap: Global, bytes: &[u8]) -> Result<Answer, Fault>
    ensures { IfOk result (λ a. Values bytes.now a) }
{
    Ok(Answer::Value(to_hex(heap, bytes)?))
}

fn mask_of(heap: Global, word: &str) -> Result<Mask, Fault> {
    let bytes = array_of(heap, word)?;
    Ok(Mask { bytes })
}

// The cases that work with a kind of permutation.
fn value_by<K: Permutation>(heap: Global, name: &str, words: &[&str]) -> Result<Answer, Fault> {
    match (name, words) {
        ("forward", [block]) => shown(heap, &K::forward(array_of(heap, block)?)),
        ("backward", [block]) => shown(heap, &K::backward(array_of(heap, block)?)),
        // Closures, since a generic function's name does not fit the bound yet.
        ("tem", _) => tweaked(heap, words, |key, tweak, block| tem::<K>(key, tweak, block)),
        ("untem", _) => tweaked(heap, words, |key, tweak, block| {
            tem_reverse::<K>(key, tweak, block)
        }),
        ("label", [key, label]) => {
            let [key, label] = [*key, *label].try_map(|word| bytes_of(heap, word))?;
            shown(heap, &label_sum::<K>(key.as_slice(), label.as_slice())?)
        }
        ("mac", [key, plate]) => {
            let [key, plate] = [*key, *plate].try_map(|word| bytes_of(heap, word))?;
            shown(heap, &plate_mac::<K>(key.as_slice(), plate.as_slice())?)
        }
        ("check", [key, plate, tag]) => {
            let [key, plate, tag] = [*key, *plate, *tag].try_map(|word| bytes_of(heap, word))?;
            plate_check::<K>(key.as_slice(), plate.as_slice(), tag.as_slice())?;
            Ok(Answer::Yes)
        }
        _ => sheet_case::<K>(heap, name, words).map(Answer::Value),
    }
}

fn tweaked<F: FnOnce(&[u8], Tweak<'_>, &[u8]) -> Result<[u8; 32], Refusal> + Drop>(
    heap: Global,
    words: &[&str],
    cipher: F,
) -> Result<Answer, Fault>
    requires { F.IsAlwaysCallable cipher }
{
    let [key, usage, nonce, i, j, block] = words else {
        return Err(Fault::Malformed);
    };
    // Word by word, and not the bytes first: what stands behind a malformed word is not read.
    let key = bytes_of(heap, key)?;
    let usage = usage_of(usage)?;
    let nonce = bytes_of(heap, nonce)?;
    let tweak = Tweak {
        usage,
        nonce: nonce.as_slice(),
        i: number_of(i)?,
        j: number_of(j)?,
    };
    let block = bytes_of(heap, block)?;
    shown(heap, &cipher(key.as_slice(), tweak, block.as_slice())?)
}
