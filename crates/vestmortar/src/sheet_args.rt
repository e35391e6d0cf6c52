// A command of a sheet from its words.
ghost use Rattle.std.specs.Prelude.{[], ◌∷◌, OnOk};
ghost use Rattle.vestmortar.specs.declared.flag.Flag.TheVariants.{Key, Tag, Nonce, Label, At, Bytes, Block};
ghost use Rattle.vestmortar.specs.Options.{TakesOnly};

use crate::digits::{Place, read_hex};
use crate::failure::{Failure, Misuse};
use crate::flag::Flag;
use crate::options::Options;
use std::alloc::Global;

// What a script can do with its sheet.
#[derive(Drop)]
pub enum SheetCommand {
    Seal {
        key: String,
        nonce: Vec<u8>,
        label: String,
        file: String,
    },
    Show,
    Open {
        key: String,
        label: String,
        tag: Option<Vec<u8>>,
    },
    Read {
        key: String,
        label: String,
        at: usize,
        amount: usize,
    },
    Damage {
        block: usize,
    },
}

fn seal_command(heap: Global, mut options: Options) -> Result<SheetCommand, Failure>
    ensures { OnOk result (TakesOnly (Key ∷ Nonce ∷ Label ∷ []) options) }
{
    options.only(&[Flag::Key, Flag::Nonce, Flag::Label])?;
    let key = options.required(Flag::Key)?;
    let digits = options.required(Flag::Nonce)?;
    let label = options.required(Flag::Label)?;
    let file = options.file.take().ok_or(Misuse::NoTextFile)?;
    Ok(SheetCommand::Seal {
        key,
        nonce: read_hex(heap, digits.as_bytes(), Place::After(Flag::Nonce))?,
        label,
        file,
    })
}

fn show_command(mut options: Options) -> Result<SheetCommand, Failure>
    ensures { OnOk result (TakesOnly [] options) }
{
    options.only(&[])?;
    options.no_file()?;
    Ok(SheetCommand::Show)
}

fn open_command(heap: Global, mut options: Options) -> Result<SheetCommand, Failure>
    ensures { OnOk result (TakesOnly (Key ∷ Label ∷ Tag ∷ []) options) }
{
    options.only(&[Flag::Key, Flag::Label, Flag::Tag])?;
    options.no_file()?;
    Ok(SheetCommand::Open {
        key: options.required(Flag::Key)?,
        label: options.required(Flag::Label)?,
        tag: options
            .take(Flag::Tag)
            .map(|digits| read_hex(heap, digits.as_bytes(), Place::After(Flag::Tag)))
            .transpose()?,
    })
}

fn read_command(mut options: Options) -> Result<SheetCommand, Failure>
    ensures { OnOk result (TakesOnly (Key ∷ Label ∷ At ∷ Bytes ∷ []) options) }
{
    options.only(&[Flag::Key, Flag::Label, Flag::At, Flag::Bytes])?;
    options.no_file()?;
    Ok(SheetCommand::Read {
        key: options.required(Flag::Key)?,
        label: options.required(Flag::Label)?,
        at: options.number(Flag::At)?,
        amount: options.number(Flag::Bytes)?,
    })
}

fn damage_command(mut options: Options) -> Result<SheetCommand, Failure>
    ensures { OnOk result (TakesOnly (Block ∷ []) options) }
{
    options.only(&[Flag::Block])?;
    options.no_file()?;
    Ok(SheetCommand::Damage {
        block: options.number(Flag::Block)?,
    })
}

// The words after `sheet`.
pub(crate) fn parse_sheet(heap: Global, words: &[String]) -> Result<SheetCommand, Failure> {
    let (name, rest) = words.split_first().ok_or(Misuse::NoSheetCommand)?;
    match name.as_str() {
        "seal" => seal_command(heap, Options::read(rest)?),
        "show" => show_command(Options::read(rest)?),
        "open" => open_command(heap, Options::read(rest)?),
        "read" => read_command(Options::read(rest)?),
        "damage" => damage_command(Options::read(rest)?),
        _ => Err(Misuse::UnknownSheetCommand(name.clone()?).into()),
    }
}
