// The library's calls on a sheet whose sealed blocks lie in memory, one after the other.
ghost use Rattle.std.specs.Prelude.{◌≡◌, ◌-◌, min, length, is_ok, if◌then◌else◌};
ghost use Rattle.sheet.specs.Calls.{open_answer, read_answer, read_bytes, under, cipher_in};
ghost use Rattle.sheet.specs.Chunks.{room_of, wholes, overwritten};
ghost use Rattle.sheet.specs.Holders.{block as block_of};
ghost use Rattle.sheet.specs.Sheets.{stated};
ghost use Rattle.vestmortar.specs.Sheets.{seal_tag, flip_answer, flipped, Reads};

use crate::failure::Failure;
use modes::refusal::Refusal;
use permutation::Permutation;
use sheet::context::Context;
use sheet::holder::{ReadBlocks, WriteBlocks};
use sheet::memory::MemoryHolder;
use sheet::received::ReceivedHolder;
use sheet::sheet::Sheet;
use sheet::state::MAX_TEXT;
use std::alloc::Global;

// Seals a text into bytes with room for its blocks: the library's tag, or its refusal.
pub(crate) fn seal_bytes<K: Permutation>(
    context: Context<'_>,
    text: &[u8],
    bytes: &mut [u8],
) -> Result<[u8; 16], Refusal>
    ensures { result ≡ seal_tag K.Permutation.forth K.Permutation.back context.entry.key.now context.entry.nonce.now context.entry.label.now text.now (room_of bytes.old) }
{
    let mut holder = MemoryHolder::new(bytes, 0);
    let sheet = Sheet::<K>::seal(context, text, &mut holder)?;
    Ok(sheet.tag())
}

// Opens the blocks that the bytes are: the library's sheet, or its refusal.
pub(crate) fn open_bytes<K: Permutation>(
    context: Context<'_>,
    tag: &[u8],
    bytes: &[u8],
) -> Result<Sheet<K>, Refusal>
    ensures { stated result ≡ open_answer (cipher_in K.Permutation.forth K.Permutation.back context.entry) context.entry.key.now context.entry.nonce.now context.entry.label.now tag.now (wholes bytes.now) }
{
    let holder = ReceivedHolder::new(bytes);
    Sheet::<K>::open(context, tag, &holder)
}

// Reads from the sheet that the bytes are the blocks of, as many bytes as the buffer holds.
fn read_bytes<K: Permutation>(
    sheet: &Sheet<K>,
    bytes: &[u8],
    at: usize,
    out: &mut [u8],
) -> Result<(), Refusal>
    ensures value { result ≡ read_answer sheet.now.state (wholes bytes.now) at (length out.old) }
    ensures copied { out.new ≡ (if is_ok result then read_bytes (under K.Permutation.forth K.Permutation.back sheet.now.state) sheet.now.state (wholes bytes.now) at (length out.old) else out.old) }
{
    let holder = ReceivedHolder::new(bytes);
    sheet.read(&holder, at, out)
}

// Reads into a buffer of its own, at most a byte longer than any text: so long a read is always declined.
pub(crate) fn read_part<K: Permutation>(
    heap: Global,
    sheet: &Sheet<K>,
    bytes: &[u8],
    at: usize,
    amount: usize,
) -> Result<Vec<u8>, Failure>
    ensures { Reads K.Permutation.forth K.Permutation.back sheet.now.state (wholes bytes.now) at (min amount 131072) result }
{
    let mut out = vec![in heap; 0u8; amount.min(MAX_TEXT + 1)]?;
    read_bytes(sheet, bytes, at, out.as_mut_slice())?;
    Ok(out)
}

// Flips the lowest bit of the first byte of block k, as a fault of the memory would.
pub(crate) fn flip_block(bytes: &mut [u8], k: usize) -> Result<(), Refusal>
    ensures value { result ≡ flip_answer bytes.old k }
    ensures after { bytes.new ≡ (if is_ok result then overwritten bytes.old (k - 1) (flipped (block_of (wholes bytes.old) k)) else bytes.old) }
{
    let count = bytes.len() / 32;
    let mut holder = MemoryHolder::new(bytes, count);
    let mut block = holder.block(k)?;
    block[0] ^= 1;
    holder.put(k, &block)
}
