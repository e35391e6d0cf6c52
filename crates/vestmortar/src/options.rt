// The options that a command's words give.
ghost use Rattle.std.specs.Prelude.{◌≡◌, ◌≢◌, Some, None, OnOk, is_some};
ghost use Rattle.std.specs.Option.{ok_or};
ghost use Rattle.vestmortar.specs.declared.failure.Misuse.TheVariants.{Missing};
ghost use Rattle.vestmortar.specs.declared.flag.Flag.{Flag};
ghost use Rattle.vestmortar.specs.Options.{value_of, given, without, all_flags, only_answer};

use crate::failure::{Failure, Misuse};
use crate::flag::Flag;

// The options and the file that a command's words name.
#[derive(Default, Drop)]
pub struct Options {
    // The value of each option, at its flag's place. No map: it is no plainer, and `give` too could then fail for want of
    // memory.
    values: [Option<String>; 7],
    pub file: Option<String>,
}

impl Options {
    pub(crate) fn read(words: &[String]) -> Result<Options, Failure> {
        let mut options = Options::default();
        let mut words = words.iter();
        while let Some(word) = words.next() {
            if let Ok(flag) = word.as_str().parse() {
                let value = words.next().ok_or(Misuse::NoValue(flag))?;
                options.give(flag, value.clone()?)?;
            } else {
                options.name_file(word)?;
            }
        }
        Ok(options)
    }

    // A word that is neither an option nor the value of one.
    fn name_file(&mut self, word: &String) -> Result<(), Failure> {
        if word.as_str().starts_with("--") {
            return Err(Misuse::UnknownOption(word.clone()?).into());
        }
        if self.file.is_some() {
            return Err(Misuse::ExtraWord(word.clone()?).into());
        }
        self.file = Some(word.clone()?);
        Ok(())
    }

    // Taken only once. A match, as in `no_file`.
    fn give(&mut self, flag: Flag, value: String) -> Result<(), Failure>
        ensures after { self.new ≡ given flag value self.old }
        ensures once { OnOk result (value_of flag self.old ≡ None) }
        ensures now { value_of flag self.new ≡ Some value }
        ensures others { (f : Flag) → f ≢ flag → value_of f self.new ≡ value_of f self.old }
        ensures file { self.new.file ≡ self.old.file }
    {
        match self.values[flag.place()].replace(value) {
            Some(_) => Err(Misuse::Twice(flag).into()),
            None => Ok(()),
        }
    }

    fn is_given(&self, flag: Flag) -> bool
        ensures { result ≡ is_some (value_of flag self.now) }
    {
        self.values[flag.place()].is_some()
    }

    // No option is given but those that are taken.
    pub(crate) fn only(&self, taken: &[Flag]) -> Result<(), Misuse>
        ensures { result ≡ only_answer taken.now self.now all_flags }
    {
        for flag in &Flag::ALL {
            if self.is_given(*flag) && !taken.contains(flag) {
                return Err(Misuse::NotTaken(*flag));
            }
        }
        Ok(())
    }

    pub(crate) fn take(&mut self, flag: Flag) -> Option<String>
        ensures value { result ≡ value_of flag self.old }
        ensures after { self.new ≡ without flag self.old }
        ensures now { value_of flag self.new ≡ None }
        ensures others { (f : Flag) → f ≢ flag → value_of f self.new ≡ value_of f self.old }
        ensures file { self.new.file ≡ self.old.file }
    {
        self.values[flag.place()].take()
    }

    pub(crate) fn required(&mut self, flag: Flag) -> Result<String, Misuse>
        ensures value { result ≡ ok_or (value_of flag self.old) (Missing flag) }
        ensures after { self.new ≡ without flag self.old }
    {
        self.take(flag).ok_or(Misuse::Missing(flag))
    }

    // A decimal number; a sign is none of its digits. The test program reads one by two such lines, with an error of its own.
    pub(crate) fn number(&mut self, flag: Flag) -> Result<usize, Misuse> {
        let digits = self.required(flag)?;
        if digits.as_str().starts_with("+") {
            return Err(Misuse::NotNumber(flag));
        }
        digits.as_str().parse().map_err(|_| Misuse::NotNumber(flag))
    }

    // For a command that takes no file. A match: `map_or` with both outcomes is no plainer.
    pub(crate) fn no_file(&mut self) -> Result<(), Misuse> {
        match self.file.take() {
            Some(word) => Err(Misuse::ExtraWord(word)),
            None => Ok(()),
        }
    }
}
