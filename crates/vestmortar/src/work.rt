// Does a command: reads its files, and calls the library.
ghost use Rattle.std.specs.Prelude.{◌≡◌, MatchResult};
ghost use Rattle.modes.specs.Sums.{mac_answer, check_answer};
ghost use Rattle.vestmortar.specs.Outcomes.{HoldsKey, LacksKey, Signs, checked};

use crate::args::Command;
use crate::digits::{Place, read_hex};
use crate::failure::{Failure, Misuse};
use modes::plate::{plate_check, plate_mac};
use permutation::Permutation;
use std::alloc::Global;
use std::fs;
use std::io::Read;
use text::hex::to_hex;

#[derive(Drop)]
pub enum Outcome {
    // The tag's digits.
    Tag(String),
    Agreed,
    // What was sealed: how many bytes, in how many blocks, and the tag's digits.
    Sealed {
        length: usize,
        count: usize,
        tag: String,
    },
    // The sheet in memory: how many blocks, and the digits of its nonce and tag.
    Kept {
        count: usize,
        nonce: String,
        tag: String,
    },
    // The length of the text.
    Opened(usize),
    // What was read, as it is printed.
    Read(String),
    // The block's number.
    Damaged(usize),
    Help,
}

// The bytes of a file, or of standard input where none is named.
pub(crate) fn read_source(rt: &HostRuntime, name: Option<String>) -> Result<Vec<u8>, Failure> {
    let Some(name) = name else {
        return read_input(rt);
    };
    fs::read(rt, name.as_str()).map_err(|error| Failure::Unreadable(Some(name), error))
}

fn read_input(rt: &HostRuntime) -> Result<Vec<u8>, Failure> {
    let mut bytes = Vec::new(rt.alloc());
    rt.stdin()
        .read_to_end(&mut bytes)
        .map_err(|error| Failure::Unreadable(None, error))?;
    Ok(bytes)
}

// The key in a file's text, of whatever length it is: the library judges that.
fn key_in(heap: Global, name: String, text: &[u8]) -> Result<Vec<u8>, Failure>
    ensures { MatchResult result (λ key. HoldsKey text.now key.items) (λ failure. LacksKey text.now name failure) }
{
    read_hex(heap, text.trim_ascii(), Place::InKeyFile(name))
}

pub(crate) fn read_key(rt: &HostRuntime, name: String) -> Result<Vec<u8>, Failure> {
    // A match, and no `map_err`: each arm gives the name away.
    match fs::read(rt, name.as_str()) {
        Ok(text) => key_in(rt.alloc(), name, text.as_slice()),
        Err(error) => Err(Failure::Unreadable(Some(name), error)),
    }
}

// Signs a plate: the outcome is the library's tag, or its refusal.
fn sign<K: Permutation>(heap: Global, key: &[u8], plate: &[u8]) -> Result<Outcome, Failure>
    ensures { Signs (mac_answer K.Permutation.forth key.now plate.now) result }
{
    let tag = plate_mac::<K>(key, plate)?;
    Ok(Outcome::Tag(to_hex(heap, &tag)?))
}

// Checks a plate: the outcome is the library's yes, or its refusal.
fn verify<K: Permutation>(key: &[u8], plate: &[u8], tag: &[u8]) -> Result<Outcome, Failure>
    ensures { result ≡ checked (check_answer K.Permutation.forth key.now plate.now tag.now) }
{
    plate_check::<K>(key, plate, tag)?;
    Ok(Outcome::Agreed)
}

// Does any command but a run, which cannot stand in a script, and those that stand only there.
pub(crate) fn perform<K: Permutation>(
    rt: &HostRuntime,
    command: Command,
) -> Result<Outcome, Failure> {
    match command {
        Command::Plate { key, plate } => {
            let key = read_key(rt, key)?;
            let plate = read_source(rt, plate)?;
            sign::<K>(rt.alloc(), key.as_slice(), plate.as_slice())
        }
        Command::Check { key, tag, plate } => {
            let key = read_key(rt, key)?;
            let plate = read_source(rt, plate)?;
            verify::<K>(key.as_slice(), plate.as_slice(), tag.as_slice())
        }
        Command::Run { .. } => Err(Misuse::NestedRun.into()),
        Command::Sheet(_) => Err(Misuse::OnlyInScripts.into()),
        Command::Help => Ok(Outcome::Help),
    }
}
