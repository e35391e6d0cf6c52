// What a sheet carries beside its text: its nonce, and whether a label is its own.
ghost use Rattle.std.specs.Prelude.{◌≡◌, [], ◌∷◌};
ghost use Rattle.modes.specs.Refusals.{answer};
ghost use Rattle.modes.specs.Sums.{same, too_long, label_sum};

use crate::sheet::Sheet;
use modes::plate::same_bytes;
use modes::refusal::Refusal;
use modes::sums::{check_length, sum_of};
use permutation::Permutation;

impl<K: Permutation> Sheet<K> {
    pub fn nonce(&self) -> [u8; 13]
        ensures { result ≡ self.now.state.nonce.bytes }
    {
        self.state.nonce.bytes
    }

    // Whether a label has the sheet's label sum. Two labels may have one sum; the sheet takes either for its own.
    pub fn carries(&self, label: &[u8]) -> Result<bool, Refusal>
        ensures { result ≡ answer (too_long label.now ∷ []) (same (label_sum K.Permutation.forth self.now.state.key.bytes label.now) self.now.state.label) }
    {
        check_length(label)?;
        Ok(same_bytes(sum_of::<K>(self.state.key, label), self.state.label))
    }
}
