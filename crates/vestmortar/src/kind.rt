// The choice of how the permutation is kept, which comes before the command. The answers are the same.
ghost use Rattle.std.specs.Prelude.{IfOk};
ghost use Rattle.vestmortar.specs.Kinds.{Chooses, IsKind};

use crate::failure::{Failure, Misuse, UnknownName};
use std::str::FromStr;

#[derive(Clone, Copy, Default)]
pub enum Kind {
    // The faster one.
    #[default]
    Rows,
    Matrices,
}

impl FromStr for Kind {
    type Err = UnknownName;

    ghost from_str_gives = { λ name r. IsKind name r };

    fn from_str(name: &str) -> Result<Kind, UnknownName> {
        match name {
            "rows" => Ok(Kind::Rows),
            "matrices" => Ok(Kind::Matrices),
            _ => Err(UnknownName),
        }
    }
}

// The kind that the first words choose, or the default where they choose none; and the words after them.
pub(crate) fn chosen(words: &[String]) -> Result<(Kind, &[String]), Failure>
    ensures { IfOk result (λ c. Chooses words.now c.0 c.1.now) }
{
    match words {
        [first, rest @ ..] if first.as_str() == "--kind" => {
            let (name, rest) = rest.split_first().ok_or(Misuse::NoKind)?;
            let Ok(kind) = name.as_str().parse() else {
                return Err(Misuse::UnknownKind(name.clone()?).into());
            };
            Ok((kind, rest))
        }
        _ => Ok((Kind::default(), words)),
    }
}
