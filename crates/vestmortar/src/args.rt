// A command from its words.
ghost use Rattle.std.specs.Prelude.{IfOk};
ghost use Rattle.vestmortar.specs.Commands.{Plates, Checks, Runs, Begins};

use crate::digits::{Place, read_hex};
use crate::failure::{Failure, Misuse};
use crate::flag::Flag;
use crate::options::Options;
use crate::sheet_args::{SheetCommand, parse_sheet};
use std::alloc::Global;

#[derive(Drop)]
pub enum Command {
    Plate {
        key: String,
        plate: Option<String>,
    },
    Check {
        key: String,
        tag: Vec<u8>,
        plate: Option<String>,
    },
    Run {
        script: Option<String>,
    },
    Sheet(SheetCommand),
    Help,
}

fn plate_command(mut options: Options) -> Result<Command, Failure>
    ensures { IfOk result (λ c. Plates options c) }
{
    options.only(&[Flag::Key])?;
    Ok(Command::Plate {
        key: options.required(Flag::Key)?,
        plate: options.file,
    })
}

fn check_command(heap: Global, mut options: Options) -> Result<Command, Failure>
    ensures { IfOk result (λ c. Checks options c) }
{
    options.only(&[Flag::Key, Flag::Tag])?;
    let key = options.required(Flag::Key)?;
    let digits = options.required(Flag::Tag)?;
    Ok(Command::Check {
        key,
        tag: read_hex(heap, digits.as_bytes(), Place::After(Flag::Tag))?,
        plate: options.file,
    })
}

fn run_command(options: Options) -> Result<Command, Failure>
    ensures { IfOk result (λ c. Runs options c) }
{
    options.only(&[])?;
    Ok(Command::Run {
        script: options.file,
    })
}

pub(crate) fn parse(heap: Global, words: &[String]) -> Result<Command, Failure>
    ensures { IfOk result (λ c. Begins words.now c) }
{
    let (name, rest) = words.split_first().ok_or(Misuse::NoCommand)?;
    match name.as_str() {
        "plate" => plate_command(Options::read(rest)?),
        "check" => check_command(heap, Options::read(rest)?),
        "run" => run_command(Options::read(rest)?),
        "sheet" => Ok(Command::Sheet(parse_sheet(heap, rest)?)),
        "--help" => Ok(Command::Help),
        _ => Err(Misuse::UnknownCommand(name.clone()?).into()),
    }
}
