// Works the commands of a script, one a line.
ghost use Rattle.std.specs.Prelude.{◌≡◌};
ghost use Rattle.vestmortar.specs.Commands.{sourced};
ghost use Rattle.vestmortar.specs.Counts.{counted};

use crate::args::{Command, parse};
use crate::failure::{Failure, Misuse};
use crate::memory::Kept;
use crate::sheet_args::SheetCommand;
use crate::work::{Outcome, perform, read_key, read_source};
use permutation::Permutation;
use sheet::sheet::Sheet;
use std::alloc::{AllocError, Global};
use std::fmt;
use std::marker::PhantomData;
use std::str::from_utf8;
use text::hex::to_hex;

// How a script's commands went.
#[derive(Clone, Copy, Default)]
struct Tally {
    taken: u64,
    declined: u64,
    wrong: u64,
}

impl Tally {
    fn add(&mut self, res: &Result<Outcome, Failure>)
        ensures { self.new ≡ counted res.now self.old }
    {
        match res {
            Ok(_) => self.taken = self.taken.saturating_add(1),
            Err(Failure::Declined(_)) => self.declined = self.declined.saturating_add(1),
            Err(_) => self.wrong = self.wrong.saturating_add(1),
        }
    }
}

impl fmt::Display for Tally {
    fn fmt<W: fmt::Write>(&self, f: &mut fmt::Formatter<W>) -> fmt::Result {
        let Tally {
            taken,
            declined,
            wrong,
        } = *self;
        let all = taken.saturating_add(declined).saturating_add(wrong);
        let noun = if all == 1 { "command" } else { "commands" };
        write!(
            f,
            "{all} {noun}: {taken} taken, {declined} declined, {wrong} wrong"
        )
    }
}

fn words(heap: Global, line: &str) -> Result<Vec<String>, AllocError> {
    line.split_ascii_whitespace()
        .map(|word| String::from_str(heap, word))
        .try_collect(heap)
}

// The label that a word stands for.
fn label_bytes(word: &str) -> &[u8] {
    if word == "-" { &[] } else { word.as_bytes() }
}

// Bytes as text where they are printable, and else as digits.
fn readable(heap: Global, bytes: &[u8]) -> Result<String, AllocError> {
    match from_utf8(bytes) {
        Ok(text) if bytes.iter().all(|byte| matches!(byte, b' '..=b'~')) => {
            String::from_str(heap, text)
        }
        _ => {
            let digits = to_hex(heap, bytes)?;
            format!(in heap; "hex {digits}")
        }
    }
}

// A command's own plate cannot come from standard input: that may be the script.
fn check_source(command: &Command) -> Result<(), Misuse>
    ensures { result ≡ sourced command.now }
{
    match command {
        Command::Plate { plate: None, .. } | Command::Check { plate: None, .. } => Err(
            Misuse::NoPlateFile,
        ),
        _ => Ok(()),
    }
}

// A script at work: the sheet that is kept from line to line, once one was sealed, and how its commands went.
#[derive(Drop)]
struct Session<'a, K> {
    rt: &'a HostRuntime,
    kept: Option<Kept>,
    tally: Tally,
    kind: PhantomData<K>,
}

impl<K: Permutation> Session<'_, K> {
    fn kept(&self) -> Result<&Kept, Misuse> {
        self.kept.as_ref().ok_or(Misuse::NoSheet)
    }

    // Opens the sheet by a key file and the word for a label, under the tag or else its own.
    fn open(
        &self,
        key: String,
        label: &str,
        tag: Option<&[u8]>,
    ) -> Result<(&Kept, Sheet<K>), Failure> {
        let kept = self.kept()?;
        let key = read_key(self.rt, key)?;
        let sheet = kept.open(key.as_slice(), label_bytes(label), tag)?;
        Ok((kept, sheet))
    }

    // Does a command with the sheet, which a command that fails leaves as it was.
    fn perform_sheet(&mut self, command: SheetCommand) -> Result<Outcome, Failure> {
        let rt = self.rt;
        let heap = rt.alloc();
        match command {
            SheetCommand::Seal {
                key,
                nonce,
                label,
                file,
            } => {
                let key = read_key(rt, key)?;
                let text = read_source(rt, Some(file))?;
                let kept = Kept::seal::<K>(
                    heap,
                    key.as_slice(),
                    nonce,
                    label_bytes(label.as_str()),
                    text.as_slice(),
                )?;
                let outcome = kept.sealed(heap, text.len())?;
                self.kept = Some(kept);
                Ok(outcome)
            }
            SheetCommand::Show => Ok(self.kept()?.shown(heap)?),
            SheetCommand::Open { key, label, tag } => {
                let (_, sheet) = self.open(key, label.as_str(), tag.as_deref())?;
                Ok(Outcome::Opened(sheet.length()))
            }
            SheetCommand::Read {
                key,
                label,
                at,
                amount,
            } => {
                let (kept, sheet) = self.open(key, label.as_str(), None)?;
                let bytes = kept.read(heap, &sheet, at, amount)?;
                Ok(Outcome::Read(readable(heap, bytes.as_slice())?))
            }
            SheetCommand::Damage { block } => {
                let kept = self.kept.as_mut().ok_or(Misuse::NoSheet)?;
                kept.damage(block)?;
                Ok(Outcome::Damaged(block))
            }
        }
    }

    fn step(&mut self, line: &str) -> Result<Outcome, Failure> {
        let heap = self.rt.alloc();
        let words = words(heap, line)?;
        match parse(heap, words.as_slice())? {
            Command::Sheet(command) => self.perform_sheet(command),
            command => {
                check_source(&command)?;
                perform::<K>(self.rt, command)
            }
        }
    }

    fn work_line(&mut self, line: &str) -> Result<(), Failure> {
        println!(self.rt; "> {line}")?;
        let result = self.step(line);
        self.tally.add(&result);
        match &result {
            Ok(outcome) => println!(self.rt; "{outcome}")?,
            Err(failure) => println!(self.rt; "{failure}")?,
        }
        Ok(())
    }
}

fn read_text(rt: &HostRuntime, script: Option<String>) -> Result<String, Failure> {
    let bytes = read_source(rt, script)?;
    Ok(String::from_utf8(bytes).map_err(|_| Misuse::NotText)?)
}

pub(crate) fn run<K: Permutation>(rt: &HostRuntime, script: Option<String>) -> Result<(), Failure> {
    let text = read_text(rt, script)?;
    let mut session = Session::<K> {
        rt,
        kept: None,
        tally: Tally::default(),
        kind: PhantomData,
    };
    for line in text.as_str().lines() {
        let command = line.trim_ascii();
        if command.is_empty() || command.starts_with("#") {
            println!(rt; "{line}")?;
        } else {
            session.work_line(command)?;
        }
    }
    let tally = session.tally;
    println!(rt; "{tally}")?;
    Ok(())
}
