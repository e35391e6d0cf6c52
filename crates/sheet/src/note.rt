// A holder that keeps a depot's note in the first block of the holder below.
ghost use Rattle.std.specs.Prelude.{◌≡◌, false, [], ◌∷◌, is_ok, if◌then◌else◌};
ghost use Rattle.sheet.specs.Holders.{block as block_of, place_answer, add_answer, drop_answer, with_block, with_more, without_last};
ghost use Rattle.sheet.specs.NoteLaws.{beyond_bounded};
ghost use Rattle.sheet.specs.Notes.{note_in, beyond, room_beyond, noted, note_answer};

use crate::checking::{check_left, check_place, check_room};
use crate::holder::{ReadBlocks, WriteBlocks};
use modes::refusal::Refusal;

// Its blocks are those below but the first, which is the note.
#[derive(Drop)]
pub struct NoteHolder<W> {
    below: W,
}

impl<W: WriteBlocks> NoteHolder<W> {
    pub fn new(below: W) -> NoteHolder<W>
        ensures { result.below ≡ below }
    {
        NoteHolder { below }
    }

    pub fn into_below(self) -> W
        ensures { result ≡ self.below }
    {
        // The note goes along: it is block 1 below.
        self.below
    }

    // Copies the note out.
    pub fn note(&self, out: &mut [u8]) -> Result<(), Refusal>
        ensures value { result ≡ place_answer (note_in (W.ReadBlocks.list self.now.below)) 1 out.old }
        ensures copied { out.new ≡ (if is_ok result then block_of (note_in (W.ReadBlocks.list self.now.below)) 1 else out.old) }
    {
        self.below.get(1, out)
    }

    // Replaces the note, or adds it where there is none yet.
    pub fn set_note(&mut self, note: &[u8]) -> Result<(), Refusal>
        ensures value { result ≡ note_answer (W.ReadBlocks.room self.old.below) note.now }
        ensures note { note_in (W.ReadBlocks.list self.new.below) ≡ (if is_ok result then note.now ∷ [] else note_in (W.ReadBlocks.list self.old.below)) }
        ensures same_list { beyond (W.ReadBlocks.list self.new.below) ≡ beyond (W.ReadBlocks.list self.old.below) }
        ensures same_room { W.ReadBlocks.room self.new.below ≡ W.ReadBlocks.room self.old.below }
        ensures untouched { is_ok result ≡ false → self.new ≡ self.old }
    {
        if self.below.count() == 0 {
            self.below.add(note)
        } else {
            self.below.put(1, note)
        }
    }
}

impl<W: WriteBlocks> ReadBlocks for NoteHolder<W> {
    ghost list = { λ h. beyond (W.ReadBlocks.list h.below) };

    ghost room = { λ h. room_beyond (W.ReadBlocks.room h.below) };

    ghost bounded = { λ h. beyond_bounded (W.ReadBlocks.bounded h.below) };

    fn count(&self) -> usize {
        self.below.count().saturating_sub(1)
    }

    fn limit(&self) -> usize {
        self.below.limit().saturating_sub(1)
    }

    // Declines by itself, so that the place is the caller's number and 0 never reaches the note.
    fn get(&self, k: usize, out: &mut [u8]) -> Result<(), Refusal> {
        check_place(self.count(), k, out)?;
        self.below.get(k + 1, out)
    }
}

impl<W: WriteBlocks> WriteBlocks for NoteHolder<W> {
    fn put(&mut self, k: usize, block: &[u8]) -> Result<(), Refusal>
        ensures value { result ≡ place_answer (beyond (W.ReadBlocks.list self.old.below)) k block.now }
        ensures after { beyond (W.ReadBlocks.list self.new.below) ≡ (if is_ok result then with_block (beyond (W.ReadBlocks.list self.old.below)) k block.now else beyond (W.ReadBlocks.list self.old.below)) }
        ensures same_room { room_beyond (W.ReadBlocks.room self.new.below) ≡ room_beyond (W.ReadBlocks.room self.old.below) }
        ensures untouched { is_ok result ≡ false → self.new ≡ self.old }
        ensures note { note_in (W.ReadBlocks.list self.new.below) ≡ note_in (W.ReadBlocks.list self.old.below) }
        ensures room_below { W.ReadBlocks.room self.new.below ≡ W.ReadBlocks.room self.old.below }
    {
        check_place(self.count(), k, block)?;
        self.below.put(k + 1, block)
    }

    // Checks before the note is made, so that a declined call leaves none behind.
    fn add(&mut self, block: &[u8]) -> Result<(), Refusal>
        ensures value { result ≡ add_answer (room_beyond (W.ReadBlocks.room self.old.below)) (beyond (W.ReadBlocks.list self.old.below)) block.now }
        ensures after { beyond (W.ReadBlocks.list self.new.below) ≡ (if is_ok result then with_more (beyond (W.ReadBlocks.list self.old.below)) block.now else beyond (W.ReadBlocks.list self.old.below)) }
        ensures same_room { room_beyond (W.ReadBlocks.room self.new.below) ≡ room_beyond (W.ReadBlocks.room self.old.below) }
        ensures untouched { is_ok result ≡ false → self.new ≡ self.old }
        ensures note { note_in (W.ReadBlocks.list self.new.below) ≡ (if is_ok result then noted (W.ReadBlocks.list self.old.below) else note_in (W.ReadBlocks.list self.old.below)) }
        ensures room_below { W.ReadBlocks.room self.new.below ≡ W.ReadBlocks.room self.old.below }
    {
        check_room(self, block)?;
        if self.below.count() == 0 {
            self.below.add(&[0; 32])?;
        }
        self.below.add(block)
    }

    // Never drops the note.
    fn drop_last(&mut self) -> Result<(), Refusal>
        ensures value { result ≡ drop_answer (beyond (W.ReadBlocks.list self.old.below)) }
        ensures after { beyond (W.ReadBlocks.list self.new.below) ≡ (if is_ok result then without_last (beyond (W.ReadBlocks.list self.old.below)) else beyond (W.ReadBlocks.list self.old.below)) }
        ensures same_room { room_beyond (W.ReadBlocks.room self.new.below) ≡ room_beyond (W.ReadBlocks.room self.old.below) }
        ensures untouched { is_ok result ≡ false → self.new ≡ self.old }
        ensures note { note_in (W.ReadBlocks.list self.new.below) ≡ note_in (W.ReadBlocks.list self.old.below) }
        ensures room_below { W.ReadBlocks.room self.new.below ≡ W.ReadBlocks.room self.old.below }
    {
        check_left(self)?;
        self.below.drop_last()
    }
}
