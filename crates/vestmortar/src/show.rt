// What the program says.
ghost use Rattle.vestmortar.specs.Outcomes.{outcome_text, failure_text};

use crate::digits::Place;
use crate::failure::Failure;
use crate::work::Outcome;
use std::fmt;
use text::words::{Shown, reason_words};

const HELP: &str = "\
Vestmortar signs plates with a key, and checks that a plate carries its tag.
It seals sheets of text with a key, and opens them again.

  vestmortar plate --key FILE [PLATE-FILE]
      prints the plate's tag, 32 hex digits
  vestmortar check --key FILE --tag HEX [PLATE-FILE]
      says whether the plate carries the tag
  vestmortar run [SCRIPT]
      works such commands from a file, one a line
  vestmortar --help
      prints this text

Before the command, --kind rows or --kind matrices chooses how the permutation
is kept. The answers are the same, and rows, which need not be named, is faster.

A script also has one sheet in memory, which is kept from line to line:

  sheet seal --key FILE --nonce HEX --label WORD TEXT-FILE
      seals the file's bytes, and prints the sheet's tag
  sheet show
      prints the number of blocks, the nonce and the tag
  sheet open --key FILE --label WORD [--tag HEX]
      opens the sheet under its own tag, or the one given
  sheet read --key FILE --label WORD --at N --bytes N
      opens the sheet, and prints bytes of its text from a position on
  sheet damage --block N
      flips one bit of a block, to show that this is found out

A plate or script that is not named comes from standard input, but in a script
each plate is a file. A plate has at most 4096 bytes, and they count as they
are, line ends too. A key file holds 32 hex digits. In a script, words are
separated by spaces or tabs, and lines that begin with # are remarks.

A sheet's text has at most 131071 bytes, counted from 0, its blocks are counted
from 1, and its nonce has 26 hex digits. A label is one word, and - stands for
the empty label. Bytes that are not all printable ASCII are shown in hex digits
after the word hex.

A command that is declined says so on standard error, with the reason's number,
layer and place, and ends with status 1, as any error does. A script goes on
after both, and ends with how many commands were taken, declined and wrong.";

// By hand, as for failures below: a derived Display states no text.
impl fmt::Display for Outcome {
    ghost output = { outcome_text };

    fn fmt<W: fmt::Write>(&self, f: &mut fmt::Formatter<W>) -> fmt::Result {
        match self {
            Outcome::Tag(digits) => write!(f, "{digits}"),
            Outcome::Agreed => write!(f, "yes: the plate carries this tag"),
            Outcome::Sealed { length, count, tag } => write!(
                f,
                "sealed: {length} bytes in {count} blocks, tag {tag}"
            ),
            Outcome::Kept { count, nonce, tag } => write!(
                f,
                "sheet: {count} blocks, nonce {nonce}, tag {tag}"
            ),
            Outcome::Opened(length) => write!(f, "opened: {length} bytes"),
            Outcome::Read(text) => write!(f, "read: {text}"),
            Outcome::Damaged(block) => write!(f, "damaged: block {block}"),
            Outcome::Help => write!(f, "{HELP}"),
        }
    }
}

impl fmt::Display for Failure {
    ghost output = { failure_text };

    fn fmt<W: fmt::Write>(&self, f: &mut fmt::Formatter<W>) -> fmt::Result {
        match self {
            Failure::Declined(refusal) => {
                let shown = Shown(*refusal);
                let words = reason_words(refusal.reason);
                write!(f, "declined: {shown}: {words}")
            }
            Failure::Usage(misuse) => write!(f, "error: {misuse}"),
            Failure::Unreadable(Some(name), error) => write!(
                f,
                "error: {name} cannot be read: {error}"
            ),
            Failure::Unreadable(None, error) => write!(
                f,
                "error: standard input cannot be read: {error}"
            ),
            Failure::NotHex(Place::InKeyFile(name)) => write!(
                f,
                "error: the key file {name} does not hold hex digits"
            ),
            Failure::NotHex(Place::After(flag)) => {
                let name = flag.name();
                write!(f, "error: the {name} is not in hex digits")
            }
            Failure::OddDigits(Place::InKeyFile(name)) => write!(
                f,
                "error: the key file {name} holds an odd number of hex digits"
            ),
            Failure::OddDigits(Place::After(flag)) => {
                let name = flag.name();
                write!(f, "error: the {name} has an odd number of hex digits")
            }
            Failure::Output(error) => write!(f, "error: the output cannot be written: {error}"),
            Failure::Memory => write!(f, "error: there is not enough memory"),
        }
    }
}
