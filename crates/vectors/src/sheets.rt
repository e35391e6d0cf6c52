// The cases that seal, open and read sheets.
ghost use Rattle.std.specs.Prelude.{◌≡◌, IfOk, string_bytes};
ghost use Rattle.sheet.specs.Calls.{seal_answer, open_answer};
ghost use Rattle.sheet.specs.Ciphers.{cipher_of};
ghost use Rattle.sheet.specs.Sheets.{stated};
ghost use Rattle.vectors.specs.Lines.{Writes, word_of as word_for};

use crate::case::{Fault, bytes_of, long_bytes_of, number_of, number_up_to};
use modes::refusal::Refusal;
use permutation::Permutation;
use sheet::context::Context;
use sheet::holder::{ReadBlocks, WriteBlocks};
use sheet::memory::MemoryHolder;
use sheet::received::ReceivedHolder;
use sheet::sheet::Sheet;
use sheet::state::block_count;
use std::alloc::{AllocError, Global};
use text::hex::to_hex;

// Longer than any text, so that no read of so much is taken.
const MAX_READ: usize = 200000;

// The most blocks that a holder keeps.
const MAX_BLOCKS: usize = 4096;

// A context with its bytes: what a sheet is sealed and opened under.
#[derive(Drop)]
struct OwnedContext {
    key: Vec<u8>,
    nonce: Vec<u8>,
    label: Vec<u8>,
}

impl OwnedContext {
    fn read(heap: Global, key: &str, nonce: &str, label: &str) -> Result<OwnedContext, Fault>
        ensures { IfOk result (λ u. Writes key.now u.key.items × Writes nonce.now u.nonce.items) }
    {
        let key = bytes_of(heap, key)?;
        let nonce = bytes_of(heap, nonce)?;
        let label = long_bytes_of(heap, label)?;
        Ok(OwnedContext { key, nonce, label })
    }

    fn context(&self) -> Context<'_>
        ensures key { result.key.now ≡ self.now.key.items }
        ensures nonce { result.nonce.now ≡ self.now.nonce.items }
        ensures label { result.label.now ≡ self.now.label.items }
    {
        Context {
            key: self.key.as_slice(),
            nonce: self.nonce.as_slice(),
            label: self.label.as_slice(),
        }
    }

    fn seal<K: Permutation, H: WriteBlocks>(
        &self,
        text: &[u8],
        h: &mut H,
    ) -> Result<Sheet<K>, Refusal>
        ensures { stated result ≡ seal_answer (cipher_of K.Permutation.forth K.Permutation.back self.now.key.items self.now.nonce.items) self.now.key.items self.now.nonce.items self.now.label.items text.now (H.ReadBlocks.room h.old) (H.ReadBlocks.list h.old) }
    {
        Sheet::<K>::seal(self.context(), text, h)
    }

    fn open<K: Permutation, R: ReadBlocks>(&self, tag: &[u8], h: &R) -> Result<Sheet<K>, Refusal>
        ensures { stated result ≡ open_answer (cipher_of K.Permutation.forth K.Permutation.back self.now.key.items self.now.nonce.items) self.now.key.items self.now.nonce.items self.now.label.items tag.now (R.ReadBlocks.list h.now) }
    {
        Sheet::<K>::open(self.context(), tag, h)
    }

    // Seals a text into just as much room as its blocks take, and goes on with its sheet.
    fn sealed<
        K: Permutation,
        F: FnOnce(OwnedContext, Sheet<K>, &mut MemoryHolder<'_>) -> Result<String, Fault> + Drop,
    >(self, heap: Global, text: &[u8], then: F) -> Result<String, Fault>
        requires { F.IsAlwaysCallable then }
    {
        let count = block_count(text.len()).min(MAX_BLOCKS);
        let mut room = vec![in heap; 0u8; 32 * count]?;
        let mut holder = MemoryHolder::new(room.as_mut_slice(), 0);
        let sheet = self.seal::<K, MemoryHolder>(text, &mut holder)?;
        then(self, sheet, &mut holder)
    }
}

// Which bytes of a text are read.
#[derive(Clone, Copy)]
struct Part {
    at: usize,
    length: usize,
}

impl Part {
    fn read(at: &str, length: &str) -> Result<Part, Fault> {
        Ok(Part {
            at: number_of(at)?,
            length: number_of(length)?,
        })
    }

    // What a sheet gives there.
    fn word<K: Permutation, R: ReadBlocks>(
        self,
        heap: Global,
        sheet: &Sheet<K>,
        h: &R,
    ) -> Result<String, Fault> {
        let mut bytes = vec![in heap; 0u8; self.length.min(MAX_READ)]?;
        sheet.read(h, self.at, bytes.as_mut_slice())?;
        Ok(excerpt(heap, bytes.as_slice())?)
    }
}

// The word of a byte string.
pub(crate) fn word_of(heap: Global, bytes: &[u8]) -> Result<String, AllocError>
    ensures { IfOk result (λ s. string_bytes s ≡ word_for bytes.now) }
{
    match bytes {
        [] => String::from_str(heap, "-"),
        _ => to_hex(heap, bytes),
    }
}

// Block k of a holder, in hex digits.
pub(crate) fn block_word<R: ReadBlocks>(heap: Global, h: &R, k: usize) -> Result<String, Fault> {
    Ok(to_hex(heap, &h.block(k)?)?)
}

// The bytes, or of many the first and the last.
fn excerpt(heap: Global, bytes: &[u8]) -> Result<String, AllocError> {
    match (bytes.first_chunk::<32>(), bytes.last_chunk::<32>()) {
        (Some(first), Some(last)) if bytes.len() > 64 => {
            let first = to_hex(heap, first)?;
            let last = to_hex(heap, last)?;
            format!(in heap; "{first}..{last}")
        }
        _ => word_of(heap, bytes),
    }
}

// The cases that seal or open a sheet: each begins with its context.
pub(crate) fn sheet_case<K: Permutation>(
    heap: Global,
    name: &str,
    words: &[&str],
) -> Result<String, Fault> {
    let [key, nonce, label, rest @ ..] = words else {
        return Err(Fault::Malformed);
    };
    // Read only where the case is one: a name or a number of words that is none costs nothing more.
    let owned = || OwnedContext::read(heap, key, nonce, label);
    match (name, rest) {
        ("seal", [limit, count, text]) => seal_case::<K>(heap, owned()?, limit, count, text),
        ("open", [tag, blocks]) => open_case::<K>(heap, owned()?, tag, blocks),
        ("reopen", [text, at, n]) => reopen_case::<K>(heap, owned()?, text, at, n),
        ("stale", [text, at, n]) => stale_case::<K>(heap, owned()?, text, at, n),
        ("spoilt", [text, what]) => spoilt_case::<K>(heap, owned()?, text, what),
        _ => Err(Fault::Malformed),
    }
}

fn seal_case<K: Permutation>(
    heap: Global,
    owned: OwnedContext,
    limit: &str,
    count: &str,
    text: &str,
) -> Result<String, Fault> {
    let text = long_bytes_of(heap, text)?;
    let limit = number_up_to(limit, MAX_BLOCKS)?;
    let count = number_up_to(count, limit)?;
    let mut room = vec![in heap; 0u8; 32 * limit]?;
    let mut holder = MemoryHolder::new(room.as_mut_slice(), count);
    let sheet = owned.seal::<K, MemoryHolder>(text.as_slice(), &mut holder)?;
    let tag = to_hex(heap, &sheet.tag())?;
    let count = holder.count();
    let first = block_word(heap, &holder, 1)?;
    let last = block_word(heap, &holder, count)?;
    Ok(format!(in heap; "{tag} {count} {first} {last}")?)
}

fn open_case<K: Permutation>(
    heap: Global,
    owned: OwnedContext,
    tag: &str,
    blocks: &str,
) -> Result<String, Fault> {
    let tag = bytes_of(heap, tag)?;
    let blocks = bytes_of(heap, blocks)?;
    if blocks.len() % 32 != 0 {
        return Err(Fault::Malformed);
    }
    let holder = ReceivedHolder::new(blocks.as_slice());
    let sheet = owned.open::<K, ReceivedHolder>(tag.as_slice(), &holder)?;
    let length = sheet.length();
    let mut text = vec![in heap; 0u8; length]?;
    sheet.read(&holder, 0, text.as_mut_slice())?;
    let word = word_of(heap, text.as_slice())?;
    Ok(format!(in heap; "{length} {word}")?)
}

fn reopen_case<K: Permutation>(
    heap: Global,
    owned: OwnedContext,
    text: &str,
    at: &str,
    length: &str,
) -> Result<String, Fault> {
    let text = long_bytes_of(heap, text)?;
    let part = Part::read(at, length)?;
    owned.sealed(heap, text.as_slice(), |owned, sheet: Sheet<K>, holder| {
        let sheet = owned.open::<K, MemoryHolder>(&sheet.tag(), holder)?;
        let shown = part.word(heap, &sheet, holder)?;
        let tag = to_hex(heap, &sheet.tag())?;
        let length = sheet.length();
        Ok(format!(in heap; "{tag} {length} {shown}")?)
    })
}

// A sheet whose holder lost its last block since it was sealed.
fn stale_case<K: Permutation>(
    heap: Global,
    owned: OwnedContext,
    text: &str,
    at: &str,
    length: &str,
) -> Result<String, Fault> {
    let text = long_bytes_of(heap, text)?;
    let part = Part::read(at, length)?;
    owned.sealed(heap, text.as_slice(), |_owned, sheet: Sheet<K>, holder| {
        holder.drop_last()?;
        part.word(heap, &sheet, holder)
    })
}

fn spoilt_case<K: Permutation>(
    heap: Global,
    owned: OwnedContext,
    text: &str,
    what: &str,
) -> Result<String, Fault> {
    let text = long_bytes_of(heap, text)?;
    owned.sealed(
        heap,
        text.as_slice(),
        |mut owned, sheet: Sheet<K>, holder| {
            let mut tag = sheet.tag();
            spoil(what, &mut owned, &mut tag, holder)?;
            let length = owned.open::<K, MemoryHolder>(&tag, holder)?.length();
            Ok(format!(in heap; "{length}")?)
        },
    )
}

fn spoil<H: WriteBlocks>(
    what: &str,
    owned: &mut OwnedContext,
    tag: &mut [u8; 16],
    h: &mut H,
) -> Result<(), Fault> {
    match what {
        "key" => flip_first(owned.key.as_mut_slice()),
        "nonce" => flip_first(owned.nonce.as_mut_slice()),
        "label" => owned.label.push(0)?,
        "tag" => tag[15] ^= 0x80,
        "drop" => h.drop_last()?,
        _ => {
            let k = what.strip_prefix("block:").ok_or(Fault::Malformed)?;
            spoil_block(h, number_of(k)?)?;
        }
    }
    Ok(())
}

fn flip_first(bytes: &mut [u8]) {
    if let Some(first) = bytes.first_mut() {
        *first ^= 1;
    }
}

fn spoil_block<H: WriteBlocks>(h: &mut H, k: usize) -> Result<(), Refusal> {
    let mut block = h.block(k)?;
    flip_first(&mut block);
    h.put(k, &block)
}
