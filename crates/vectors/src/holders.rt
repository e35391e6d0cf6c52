// The cases that work holders by themselves.
ghost use Rattle.std.specs.Prelude.{◌≡◌, IfOk, string_bytes, decimal};

use crate::case::{Fault, array_of, number_of, number_up_to};
use crate::sheets::block_word;
use sheet::holder::{ReadBlocks, WriteBlocks};
use sheet::memory::MemoryHolder;
use sheet::note::NoteHolder;
use std::alloc::Global;
use text::words::Shown;

// More bytes than any holder has use for.
const MAX_ROOM: usize = 1000000;

fn room_of(heap: Global, size: &str) -> Result<Vec<u8>, Fault> {
    Ok(vec![in heap; 0u8; number_up_to(size, MAX_ROOM)?]?)
}

pub(crate) fn hold_case(
    heap: Global,
    size: &str,
    count: &str,
    operations: &[&str],
) -> Result<String, Fault> {
    let mut room = room_of(heap, size)?;
    let mut memory = MemoryHolder::new(room.as_mut_slice(), number_of(count)?);
    outcomes(heap, &mut memory, operations)
}

pub(crate) fn note_case(
    heap: Global,
    size: &str,
    count: &str,
    depth: &str,
    operations: &[&str],
) -> Result<String, Fault> {
    let mut room = room_of(heap, size)?;
    let memory = MemoryHolder::new(room.as_mut_slice(), number_of(count)?);
    let once = NoteHolder::new(memory);
    match depth {
        "1" => noted(heap, once, NoteHolder::into_below, operations),
        "2" => noted(
            heap,
            NoteHolder::new(once),
            |h| h.into_below().into_below(),
            operations,
        ),
        _ => Err(Fault::Malformed),
    }
}

// What a holder's operations come to, and the lowest holder after them: its count, and its first block.
fn noted<W: WriteBlocks + Drop, R: ReadBlocks + Drop, F: FnOnce(W) -> R + Drop>(
    heap: Global,
    mut holder: W,
    lowest: F,
    operations: &[&str],
) -> Result<String, Fault>
    requires { F.IsAlwaysCallable lowest }
{
    let shown = outcomes(heap, &mut holder, operations)?;
    let lowest = lowest(holder);
    let count = lowest.count();
    let first = if count == 0 {
        String::from_str(heap, "-")?
    } else {
        block_word(heap, &lowest, 1)?
    };
    Ok(format!(in heap; "{shown} | {count} {first}")?)
}

fn outcomes<W: WriteBlocks>(heap: Global, h: &mut W, operations: &[&str]) -> Result<String, Fault> {
    let mut shown = String::new(heap);
    for operation in operations {
        if !shown.is_empty() {
            shown.push(';')?;
        }
        shown.push_str(outcome_or_refusal(heap, h, operation)?.as_str())?;
    }
    Ok(shown)
}

fn outcome_or_refusal<W: WriteBlocks>(
    heap: Global,
    h: &mut W,
    operation: &str,
) -> Result<String, Fault> {
    match outcome(heap, h, operation) {
        Err(Fault::Declined(refusal)) => {
            let shown = Shown(refusal);
            Ok(format!(in heap; "declined {shown}")?)
        }
        other => other,
    }
}

fn outcome<W: WriteBlocks>(heap: Global, h: &mut W, operation: &str) -> Result<String, Fault> {
    let words: Vec<&str> = operation.split(':').collect(heap)?;
    match words.as_slice() {
        ["count"] => number_word(heap, h.count()),
        ["limit"] => number_word(heap, h.limit()),
        ["get", k] => block_word(heap, h, number_of(k)?),
        change => {
            changed(heap, h, change)?;
            Ok(String::from_str(heap, "ok")?)
        }
    }
}

// The operations that give nothing, if they are taken.
fn changed<W: WriteBlocks>(heap: Global, h: &mut W, words: &[&str]) -> Result<(), Fault> {
    match words {
        ["put", k, byte] => h.put(number_of(k)?, &filled_block(heap, byte)?)?,
        ["add", byte] => h.add(&filled_block(heap, byte)?)?,
        ["drop"] => h.drop_last()?,
        // With buffers of other sizes than 32.
        ["getshort", k] => h.get(number_of(k)?, &mut [0; 31])?,
        ["putshort", k] => h.put(number_of(k)?, &[0; 31])?,
        ["addlong"] => h.add(&[0; 33])?,
        _ => return Err(Fault::Malformed),
    }
    Ok(())
}

fn filled_block(heap: Global, byte: &str) -> Result<[u8; 32], Fault> {
    let [byte] = array_of::<1>(heap, byte)?;
    Ok([byte; 32])
}

fn number_word(heap: Global, number: usize) -> Result<String, Fault>
    ensures { IfOk result (λ s. string_bytes s ≡ decimal number) }
{
    Ok(format!(in heap; "{number}")?)
}
