// The calls of a sheet.
ghost use Rattle.std.specs.Prelude.{◌≡◌, ℕ, false, List, length, is_ok, IfOk, if◌then◌else◌};
ghost use Rattle.modes.specs.Refusals.{answer};
ghost use Rattle.sheet.specs.Calls.{seal_answer, open_answer, read_answer, read_bytes, tag_answer, under, cipher_in};
ghost use Rattle.sheet.specs.Edits.{overwritten, lengthened, shortened, write_claims, append_claims, cut_claims, relabel_claims, written, written_blocks, appended, appended_blocks, cut_back, cut_blocks, relabelled};
ghost use Rattle.sheet.specs.Opening.{OpensExactly, Reopens};
ghost use Rattle.sheet.specs.Sealing.{sealed};
ghost use Rattle.sheet.specs.Sheets.{stated};
ghost use Rattle.sheet.specs.Standing.{Stands};

use crate::context::Context;
use crate::holder::{ReadBlocks, WriteBlocks};
use crate::sheet::Sheet;
use crate::state::State;
use modes::refusal::Refusal;
use permutation::Permutation;
use std::marker::PhantomData;

impl<K: Permutation> Sheet<K> {
    // Seals a text under a context into an empty holder.
    pub fn seal<H: WriteBlocks>(
        context: Context<'_>,
        text: &[u8],
        h: &mut H,
    ) -> Result<Sheet<K>, Refusal>
        ensures value { stated result ≡ seal_answer (cipher_in K.Permutation.forth K.Permutation.back context.entry) context.entry.key.now context.entry.nonce.now context.entry.label.now text.now (H.ReadBlocks.room h.old) (H.ReadBlocks.list h.old) }
        ensures after { H.ReadBlocks.list h.new ≡ (if is_ok result then sealed (cipher_in K.Permutation.forth K.Permutation.back context.entry) text.now else H.ReadBlocks.list h.old) }
        ensures same_room { H.ReadBlocks.room h.new ≡ H.ReadBlocks.room h.old }
        ensures untouched { is_ok result ≡ false → h.new ≡ h.old }
        ensures reopens { IfOk result (λ s. Reopens (cipher_in K.Permutation.forth K.Permutation.back context.entry) context.entry.key.now context.entry.nonce.now context.entry.label.now text.now (H.ReadBlocks.list h.new) s.state) }
    {
        let state = State::seal::<K, H>(context, text, h)?;
        Ok(Sheet {
            state,
            kind: PhantomData,
        })
    }

    // Opens what a holder has under a context and a tag.
    pub fn open<R: ReadBlocks>(context: Context<'_>, tag: &[u8], h: &R) -> Result<Sheet<K>, Refusal>
        ensures value { stated result ≡ open_answer (cipher_in K.Permutation.forth K.Permutation.back context.entry) context.entry.key.now context.entry.nonce.now context.entry.label.now tag.now (R.ReadBlocks.list h.now) }
        ensures exactly { OpensExactly (cipher_in K.Permutation.forth K.Permutation.back context.entry) context.entry.key.now context.entry.nonce.now context.entry.label.now tag.now (R.ReadBlocks.list h.now) (stated result) }
    {
        let state = State::open::<K, R>(context, tag, h)?;
        Ok(Sheet {
            state,
            kind: PhantomData,
        })
    }

    // Overwrites bytes from a position.
    pub fn write<H: WriteBlocks>(
        &mut self,
        h: &mut H,
        at: usize,
        bytes: &[u8],
    ) -> Result<(), Refusal>
        ensures value { result ≡ answer (write_claims self.old.state (H.ReadBlocks.list h.old) at (length bytes.now)) tt }
        ensures state { self.new.state ≡ (if is_ok result then written (under K.Permutation.forth K.Permutation.back self.old.state) self.old.state (H.ReadBlocks.list h.old) at bytes.now else self.old.state) }
        ensures after { H.ReadBlocks.list h.new ≡ (if is_ok result then written_blocks (under K.Permutation.forth K.Permutation.back self.old.state) self.old.state (H.ReadBlocks.list h.old) at bytes.now else H.ReadBlocks.list h.old) }
        ensures same_room { H.ReadBlocks.room h.new ≡ H.ReadBlocks.room h.old }
        ensures untouched { is_ok result ≡ false → h.new ≡ h.old }
        ensures stands { (text text_label : List ℕ) → Stands K.Permutation.forth K.Permutation.back self.old.state (H.ReadBlocks.list h.old) text text_label → Stands K.Permutation.forth K.Permutation.back self.new.state (H.ReadBlocks.list h.new) (if is_ok result then overwritten text at bytes.now else text) text_label }
    {
        self.state = self.state.write::<K, H>(h, at, bytes)?;
        Ok(())
    }

    // Adds bytes at the end.
    pub fn append<H: WriteBlocks>(&mut self, h: &mut H, bytes: &[u8]) -> Result<(), Refusal>
        ensures value { result ≡ answer (append_claims self.old.state (H.ReadBlocks.room h.old) (H.ReadBlocks.list h.old) (length bytes.now)) tt }
        ensures state { self.new.state ≡ (if is_ok result then appended (under K.Permutation.forth K.Permutation.back self.old.state) self.old.state (H.ReadBlocks.list h.old) bytes.now else self.old.state) }
        ensures after { H.ReadBlocks.list h.new ≡ (if is_ok result then appended_blocks (under K.Permutation.forth K.Permutation.back self.old.state) self.old.state (H.ReadBlocks.list h.old) bytes.now else H.ReadBlocks.list h.old) }
        ensures same_room { H.ReadBlocks.room h.new ≡ H.ReadBlocks.room h.old }
        ensures untouched { is_ok result ≡ false → h.new ≡ h.old }
        ensures stands { (text text_label : List ℕ) → Stands K.Permutation.forth K.Permutation.back self.old.state (H.ReadBlocks.list h.old) text text_label → Stands K.Permutation.forth K.Permutation.back self.new.state (H.ReadBlocks.list h.new) (if is_ok result then lengthened text bytes.now else text) text_label }
    {
        self.state = self.state.append::<K, H>(h, bytes)?;
        Ok(())
    }

    // Removes bytes from the end.
    pub fn cut<H: WriteBlocks>(&mut self, h: &mut H, amount: usize) -> Result<(), Refusal>
        ensures value { result ≡ answer (cut_claims self.old.state (H.ReadBlocks.list h.old) amount) tt }
        ensures state { self.new.state ≡ (if is_ok result then cut_back (under K.Permutation.forth K.Permutation.back self.old.state) self.old.state (H.ReadBlocks.list h.old) amount else self.old.state) }
        ensures after { H.ReadBlocks.list h.new ≡ (if is_ok result then cut_blocks (under K.Permutation.forth K.Permutation.back self.old.state) self.old.state (H.ReadBlocks.list h.old) amount else H.ReadBlocks.list h.old) }
        ensures same_room { H.ReadBlocks.room h.new ≡ H.ReadBlocks.room h.old }
        ensures untouched { is_ok result ≡ false → h.new ≡ h.old }
        ensures stands { (text text_label : List ℕ) → Stands K.Permutation.forth K.Permutation.back self.old.state (H.ReadBlocks.list h.old) text text_label → Stands K.Permutation.forth K.Permutation.back self.new.state (H.ReadBlocks.list h.new) (if is_ok result then shortened text amount else text) text_label }
    {
        self.state = self.state.cut::<K, H>(h, amount)?;
        Ok(())
    }

    // Puts another label. The blocks do not hang on the label, so no holder is needed.
    pub fn relabel(&mut self, label: &[u8]) -> Result<(), Refusal>
        ensures value { result ≡ answer (relabel_claims label.now) tt }
        ensures state { self.new.state ≡ (if is_ok result then relabelled (under K.Permutation.forth K.Permutation.back self.old.state) self.old.state label.now else self.old.state) }
        ensures stands { (bs : List (List ℕ)) (text text_label : List ℕ) → Stands K.Permutation.forth K.Permutation.back self.old.state bs text text_label → Stands K.Permutation.forth K.Permutation.back self.new.state bs text (if is_ok result then label.now else text_label) }
    {
        self.state = self.state.relabel::<K>(label)?;
        Ok(())
    }

    // Copies bytes out from a position, as many as the buffer holds.
    pub fn read<R: ReadBlocks>(&self, h: &R, at: usize, out: &mut [u8]) -> Result<(), Refusal>
        ensures value { result ≡ read_answer self.now.state (R.ReadBlocks.list h.now) at (length out.old) }
        ensures copied { out.new ≡ (if is_ok result then read_bytes (under K.Permutation.forth K.Permutation.back self.now.state) self.now.state (R.ReadBlocks.list h.now) at (length out.old) else out.old) }
    {
        self.state.read::<K, R>(h, at, out)
    }

    // The tag of the sheet as it is; never declined.
    pub fn tag(&self) -> [u8; 16]
        ensures { result ≡ tag_answer (under K.Permutation.forth K.Permutation.back self.now.state) self.now.state }
    {
        self.state.tag::<K>()
    }

    // The length of the text in bytes.
    pub fn length(&self) -> usize
        ensures { result ≡ self.now.state.length }
    {
        self.state.length
    }
}
