// The values worked by hand that the definitions are held against, those of the sheets among them.
ghost use Rattle.std.specs.Prelude.{◌≡◌, true};
ghost use Rattle.envelope.specs.Worked.{WorkedValues};

use crate::send::envelope_length;

// That the worked values stand, all together; the length of the empty sheet's envelope is computed too.
#[tactic(auto, using(crate::proofs::WorkedEnvelopes::worked), unfolding(crate::specs::Numbers::groups))]
pub fn worked_values() -> bool
    ensures stand { WorkedValues }
    ensures computed { result ≡ true }
{
    let empty = envelope_length(0, 1);
    let sheets = sheet::worked::worked_values();
    sheets && empty == 65
}
