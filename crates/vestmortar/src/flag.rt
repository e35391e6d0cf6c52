// The options that commands have.
ghost use Rattle.std.specs.Prelude.{◌≡◌, ◌<◌, Some};
ghost use Rattle.vestmortar.specs.Options.{flag_name, flag_word, place_of, IsFlag};

use crate::failure::UnknownName;
use std::fmt;
use std::str::FromStr;

#[derive(Clone, Copy, Debug, PartialEq, Eq)]
pub enum Flag {
    Key,
    Tag,
    Nonce,
    Label,
    At,
    Bytes,
    Block,
}

impl Flag {
    pub const ALL: [Flag; 7] = [
        Flag::Key,
        Flag::Tag,
        Flag::Nonce,
        Flag::Label,
        Flag::At,
        Flag::Bytes,
        Flag::Block,
    ];

    pub(crate) fn name(self) -> &'static str
        ensures { result.now ≡ flag_name self }
    {
        match self {
            Flag::Key => "key",
            Flag::Tag => "tag",
            Flag::Nonce => "nonce",
            Flag::Label => "label",
            Flag::At => "at",
            Flag::Bytes => "bytes",
            Flag::Block => "block",
        }
    }

    // Its place in the list of all.
    pub(crate) fn place(self) -> usize
        ensures value { result ≡ place_of self }
        ensures bound { result < 7 }
    {
        self as usize
    }
}

impl FromStr for Flag {
    type Err = UnknownName;

    ghost from_str_gives = { λ word r. IsFlag word r };

    // Written out, and no search of `ALL` by name: of a search the check does not find which word gives which option.
    fn from_str(word: &str) -> Result<Flag, UnknownName> {
        match word {
            "--key" => Ok(Flag::Key),
            "--tag" => Ok(Flag::Tag),
            "--nonce" => Ok(Flag::Nonce),
            "--label" => Ok(Flag::Label),
            "--at" => Ok(Flag::At),
            "--bytes" => Ok(Flag::Bytes),
            "--block" => Ok(Flag::Block),
            _ => Err(UnknownName),
        }
    }
}

impl fmt::Display for Flag {
    ghost output = { λ flag. Some (flag_word flag) };

    fn fmt<W: fmt::Write>(&self, f: &mut fmt::Formatter<W>) -> fmt::Result {
        let name = self.name();
        write!(f, "--{name}")
    }
}
