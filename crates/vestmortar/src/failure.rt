// Everything that can keep a command from being taken.
ghost use Rattle.std.specs.Prelude.{◌≡◌};
ghost use Rattle.vestmortar.specs.declared.failure.Failure.TheVariants.{Declined, Usage, Memory};

use crate::digits::Place;
use crate::flag::Flag;
use modes::refusal::Refusal;
use std::alloc::{AllocError, AllocFailed};
use std::io;
use thiserror::Error;

#[derive(Drop)]
pub enum Failure {
    // The library declined the call.
    Declined(Refusal),
    Usage(Misuse),
    // A file, or standard input where there is no name, could not be read.
    Unreadable(Option<String>, io::Error),
    NotHex(Place),
    OddDigits(Place),
    Output(io::Error),
    Memory,
}

// A command that is not one.
#[derive(Debug, Drop, Error)]
pub enum Misuse {
    #[error("no command is given; see vestmortar --help")]
    NoCommand,
    #[error("there is no command {0}; see vestmortar --help")]
    UnknownCommand(String),
    #[error("no command of a sheet is given; see vestmortar --help")]
    NoSheetCommand,
    #[error("there is no command sheet {0}; see vestmortar --help")]
    UnknownSheetCommand(String),
    #[error("there is no option {0}")]
    UnknownOption(String),
    #[error("the word {0} is one too many")]
    ExtraWord(String),
    #[error("nothing stands after {0}")]
    NoValue(Flag),
    #[error("the option {0} is missing")]
    Missing(Flag),
    #[error("the option {0} is given twice")]
    Twice(Flag),
    #[error("this command takes no {0}")]
    NotTaken(Flag),
    #[error("what stands after {0} is no number that fits")]
    NotNumber(Flag),
    #[error("in a script a plate must be a file")]
    NoPlateFile,
    #[error("no file is named to be sealed")]
    NoTextFile,
    // A script's sheet where nothing was sealed yet, or where there is no script.
    #[error("there is no sheet in memory")]
    NoSheet,
    #[error("a sheet in memory is only for scripts")]
    OnlyInScripts,
    #[error("a script cannot run a script")]
    NestedRun,
    #[error("nothing stands after --kind")]
    NoKind,
    #[error("there is no kind {0}; there are rows and matrices")]
    UnknownKind(String),
    #[error("the script is not UTF-8 text")]
    NotText,
}

// A word that names no option, or no kind.
#[derive(Clone, Copy)]
pub struct UnknownName;

impl From<Refusal> for Failure {
    ghost from_gives = { λ e r. r ≡ Declined e };

    fn from(refusal: Refusal) -> Failure {
        Failure::Declined(refusal)
    }
}

impl From<Misuse> for Failure {
    ghost from_gives = { λ e r. r ≡ Usage e };

    fn from(misuse: Misuse) -> Failure {
        Failure::Usage(misuse)
    }
}

impl From<io::Error> for Failure {
    fn from(error: io::Error) -> Failure {
        Failure::Output(error)
    }
}

// Two impls, and by hand: the library has two types for it, and clauses name the error that a `?` makes.
impl From<AllocError> for Failure {
    ghost from_gives = { λ _ r. r ≡ Memory };

    fn from(_e: AllocError) -> Failure {
        Failure::Memory
    }
}

impl<T: Drop> From<AllocFailed<T>> for Failure {
    ghost from_gives = { λ _ r. r ≡ Memory };

    fn from(_e: AllocFailed<T>) -> Failure {
        Failure::Memory
    }
}
