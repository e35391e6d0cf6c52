// The values worked by hand that the definitions are held against.
ghost use Rattle.std.specs.Prelude.{◌≡◌, true};
ghost use Rattle.modes.specs.Worked.{WorkedValues};

use crate::mask::doubled;

// That the worked values stand; the two of doubling are also computed, as a check of the compiled code.
pub fn worked_values() -> bool
    ensures stand { WorkedValues }
    ensures computed { result ≡ true }
{
    let off = (doubled(0xBB) ^ 0xD5) | (doubled(0x80) ^ 0xA3);
    off == 0
}
