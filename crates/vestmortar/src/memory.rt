// A sealed sheet in memory, which is opened anew each time.
ghost use Rattle.std.specs.Prelude.{◌≡◌, ◌-◌, ◌/◌, min, length, is_ok, if◌then◌else◌, IfOk};
ghost use Rattle.std.specs.Option.{option_copied, unwrap_or};
ghost use Rattle.sheet.specs.Calls.{open_answer};
ghost use Rattle.sheet.specs.Chunks.{overwritten, room_of, wholes};
ghost use Rattle.sheet.specs.Ciphers.{cipher_of};
ghost use Rattle.sheet.specs.Holders.{block as block_of};
ghost use Rattle.sheet.specs.Sealing.{blocks_in};
ghost use Rattle.sheet.specs.Sheets.{stated};
ghost use Rattle.vestmortar.specs.Sheets.{flip_answer, flipped, seal_tag, Keeps, Reads};

use crate::calls::{flip_block, open_bytes, read_part, seal_bytes};
use crate::failure::Failure;
use crate::work::Outcome;
use modes::refusal::Refusal;
use permutation::Permutation;
use sheet::context::Context;
use sheet::sheet::Sheet;
use sheet::state::block_count;
use std::alloc::{AllocError, Global};
use text::hex::to_hex;

#[derive(Drop)]
pub struct Kept {
    // The sealed blocks, of 32 bytes each.
    blocks: Vec<u8>,
    nonce: Vec<u8>,
    tag: [u8; 16],
}

// Room for the blocks of a text, and for no more than a sheet can have. Each program has such a line: they share no crate
// with a heap and sheets.
fn room_for(heap: Global, text: &[u8]) -> Result<Vec<u8>, AllocError>
    ensures { IfOk result (λ v. room_of v.items ≡ min (blocks_in (length text.now)) 4096) }
{
    let count = block_count(text.len()).min(4096);
    vec![in heap; 0u8; 32 * count]
}

impl Kept {
    pub(crate) fn seal<K: Permutation>(
        heap: Global,
        key: &[u8],
        nonce: Vec<u8>,
        label: &[u8],
        text: &[u8],
    ) -> Result<Kept, Failure>
        ensures { Keeps (seal_tag K.Permutation.forth K.Permutation.back key.now nonce.items label.now text.now (min (blocks_in (length text.now)) 4096)) nonce result }
    {
        let mut blocks = room_for(heap, text)?;
        let context = Context {
            key,
            nonce: nonce.as_slice(),
            label,
        };
        let tag = seal_bytes::<K>(context, text, blocks.as_mut_slice())?;
        Ok(Kept { blocks, nonce, tag })
    }

    fn count(&self) -> usize
        ensures { result ≡ length self.now.blocks.items / 32 }
    {
        self.blocks.len() / 32
    }

    // What is said where a text of so many bytes was sealed.
    pub(crate) fn sealed(&self, heap: Global, length: usize) -> Result<Outcome, AllocError> {
        Ok(Outcome::Sealed {
            length,
            count: self.count(),
            tag: to_hex(heap, &self.tag)?,
        })
    }

    pub(crate) fn shown(&self, heap: Global) -> Result<Outcome, AllocError> {
        Ok(Outcome::Kept {
            count: self.count(),
            nonce: to_hex(heap, self.nonce.as_slice())?,
            tag: to_hex(heap, &self.tag)?,
        })
    }

    // Opens the sheet under the tag, or under its own where none is given.
    pub(crate) fn open<K: Permutation>(
        &self,
        key: &[u8],
        label: &[u8],
        tag: Option<&[u8]>,
    ) -> Result<Sheet<K>, Refusal>
        ensures { stated result ≡ open_answer (cipher_of K.Permutation.forth K.Permutation.back key.now self.now.nonce.items) key.now self.now.nonce.items label.now (unwrap_or (option_copied tag.entry) self.now.tag) (wholes self.now.blocks.items) }
    {
        let context = Context {
            key,
            nonce: self.nonce.as_slice(),
            label,
        };
        open_bytes(context, tag.unwrap_or(&self.tag), self.blocks.as_slice())
    }

    pub(crate) fn read<K: Permutation>(
        &self,
        heap: Global,
        sheet: &Sheet<K>,
        at: usize,
        amount: usize,
    ) -> Result<Vec<u8>, Failure>
        ensures { Reads K.Permutation.forth K.Permutation.back sheet.now.state (wholes self.now.blocks.items) at (min amount 131072) result }
    {
        read_part(heap, sheet, self.blocks.as_slice(), at, amount)
    }

    // Flips a bit of a block.
    pub(crate) fn damage(&mut self, block: usize) -> Result<(), Refusal>
        ensures value { result ≡ flip_answer self.old.blocks.items block }
        ensures after { self.new.blocks.items ≡ (if is_ok result then overwritten self.old.blocks.items (block - 1) (flipped (block_of (wholes self.old.blocks.items) block)) else self.old.blocks.items) }
        ensures same { (self.new.nonce ≡ self.old.nonce) × (self.new.tag ≡ self.old.tag) }
    {
        flip_block(self.blocks.as_mut_slice(), block)
    }
}
