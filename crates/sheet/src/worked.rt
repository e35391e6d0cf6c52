// The values worked by hand that the definitions are held against, those of the modes among them.
ghost use Rattle.std.specs.Prelude.{◌≡◌, true};
ghost use Rattle.sheet.specs.Worked.{WorkedValues};

// That the worked values stand, all together; those that the modes compute are computed too.
pub fn worked_values() -> bool
    ensures stand { WorkedValues }
    ensures computed { result ≡ true }
{
    modes::worked::worked_values()
}
