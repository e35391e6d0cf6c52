// Write, append, cut and relabel: what each checks, and the edit that it makes.
ghost use Rattle.std.specs.Prelude.{◌≡◌, false, length, is_ok, if◌then◌else◌, OnOk};
ghost use Rattle.modes.specs.Refusals.{answer};
ghost use Rattle.sheet.specs.Calls.{under};
ghost use Rattle.sheet.specs.Edits.{write_claims, append_claims, cut_claims, relabel_claims, written, written_blocks, appended, appended_blocks, cut_back, cut_blocks, relabelled};
ghost use Rattle.sheet.specs.Standing.{Keyed};

use crate::editing::Edit;
use crate::holder::{ReadBlocks, WriteBlocks};
use crate::state::{MAX_TEXT, State, block_count};
use modes::mask::xor_blocks;
use modes::refusal::{Layer, Reason, Refusal};
use modes::sums::{check_length, sum_of};
use permutation::Permutation;

impl State {
    // Overwrites bytes from a position.
    pub(crate) fn write<K: Permutation, H: WriteBlocks>(
        self,
        h: &mut H,
        at: usize,
        bytes: &[u8],
    ) -> Result<State, Refusal>
        ensures value { result ≡ answer (write_claims self (H.ReadBlocks.list h.old) at (length bytes.now)) (written (under K.Permutation.forth K.Permutation.back self) self (H.ReadBlocks.list h.old) at bytes.now) }
        ensures after { H.ReadBlocks.list h.new ≡ (if is_ok result then written_blocks (under K.Permutation.forth K.Permutation.back self) self (H.ReadBlocks.list h.old) at bytes.now else H.ReadBlocks.list h.old) }
        ensures same_room { H.ReadBlocks.room h.new ≡ H.ReadBlocks.room h.old }
        ensures untouched { is_ok result ≡ false → h.new ≡ h.old }
        ensures keyed { OnOk result (Keyed self) }
    {
        self.check_range(h, at, bytes.len())?;
        if bytes.is_empty() {
            return Ok(self);
        }
        let end = (at + bytes.len()).div_ceil(32);
        let edit = Edit {
            at,
            bytes,
            length: self.length,
        };
        Ok(self.edited::<K, H>(h, edit, end, end))
    }

    fn check_append<R: ReadBlocks>(self, h: &R, amount: usize) -> Result<(), Refusal>
        ensures { result ≡ answer (append_claims self (R.ReadBlocks.room h.now) (R.ReadBlocks.list h.now) amount) tt }
    {
        if self.length > MAX_TEXT || amount > MAX_TEXT - self.length {
            return Err(Refusal::new(Layer::Sheet, Reason::TextLength, 0));
        }
        self.check_count(h)?;
        if h.limit() < block_count(self.length + amount) {
            return Err(Refusal::new(Layer::Sheet, Reason::Limit, 0));
        }
        Ok(())
    }

    // Adds bytes at the end.
    pub(crate) fn append<K: Permutation, H: WriteBlocks>(
        self,
        h: &mut H,
        bytes: &[u8],
    ) -> Result<State, Refusal>
        ensures value { result ≡ answer (append_claims self (H.ReadBlocks.room h.old) (H.ReadBlocks.list h.old) (length bytes.now)) (appended (under K.Permutation.forth K.Permutation.back self) self (H.ReadBlocks.list h.old) bytes.now) }
        ensures after { H.ReadBlocks.list h.new ≡ (if is_ok result then appended_blocks (under K.Permutation.forth K.Permutation.back self) self (H.ReadBlocks.list h.old) bytes.now else H.ReadBlocks.list h.old) }
        ensures same_room { H.ReadBlocks.room h.new ≡ H.ReadBlocks.room h.old }
        ensures untouched { is_ok result ≡ false → h.new ≡ h.old }
        ensures keyed { OnOk result (Keyed self) }
    {
        self.check_append(h, bytes.len())?;
        if bytes.is_empty() {
            return Ok(self);
        }
        let edit = Edit {
            at: self.length,
            bytes,
            length: self.length + bytes.len(),
        };
        Ok(self.edited::<K, H>(h, edit, self.blocks(), block_count(edit.length)))
    }

    fn check_cut<R: ReadBlocks>(self, h: &R, amount: usize) -> Result<(), Refusal>
        ensures { result ≡ answer (cut_claims self (R.ReadBlocks.list h.now) amount) tt }
    {
        self.check_count(h)?;
        if amount > self.length {
            return Err(Refusal::new(Layer::Sheet, Reason::Range, 0));
        }
        Ok(())
    }

    // Removes bytes from the end.
    pub(crate) fn cut<K: Permutation, H: WriteBlocks>(
        self,
        h: &mut H,
        amount: usize,
    ) -> Result<State, Refusal>
        ensures value { result ≡ answer (cut_claims self (H.ReadBlocks.list h.old) amount) (cut_back (under K.Permutation.forth K.Permutation.back self) self (H.ReadBlocks.list h.old) amount) }
        ensures after { H.ReadBlocks.list h.new ≡ (if is_ok result then cut_blocks (under K.Permutation.forth K.Permutation.back self) self (H.ReadBlocks.list h.old) amount else H.ReadBlocks.list h.old) }
        ensures same_room { H.ReadBlocks.room h.new ≡ H.ReadBlocks.room h.old }
        ensures untouched { is_ok result ≡ false → h.new ≡ h.old }
        ensures keyed { OnOk result (Keyed self) }
    {
        self.check_cut(h, amount)?;
        if amount == 0 {
            return Ok(self);
        }
        let length = self.length - amount;
        let edit = Edit {
            at: length,
            bytes: &[],
            length,
        };
        Ok(self.edited::<K, H>(h, edit, self.blocks(), block_count(length)))
    }

    // Puts another label.
    pub(crate) fn relabel<K: Permutation>(self, label: &[u8]) -> Result<State, Refusal>
        ensures { result ≡ answer (relabel_claims label.now) (relabelled (under K.Permutation.forth K.Permutation.back self) self label.now) }
    {
        check_length(label)?;
        let label = sum_of::<K>(self.key, label);
        let change = xor_blocks(self.label, label);
        Ok(State {
            label,
            sum: xor_blocks(self.sum, change),
            ..self
        })
    }
}
