// What is measured. What a call comes to goes into the next, so that none can be left out.
use crate::failure::Failure;
use crate::meter::{Load, Meter};
use modes::plate::plate_mac;
use modes::refusal::Refusal;
use permutation::Permutation;
use sheet::context::Context;
use sheet::memory::MemoryHolder;
use sheet::received::ReceivedHolder;
use sheet::sheet::Sheet;
use sheet::state::block_count;
use std::alloc::{AllocError, Global};
use std::fmt::Display;

const KEY: [u8; 16] = [7; 16];

const CONTEXT: Context<'static> = Context {
    key: &KEY,
    nonce: &[9; 13],
    label: &[],
};

fn zeros(heap: Global, n: u32) -> Result<Vec<u8>, AllocError> {
    vec![in heap; 0u8; n as usize]
}

// Room for the blocks of a text: one line, as in the other programs, which share no crate with a heap and sheets.
fn room_for(heap: Global, n: u32) -> Result<Vec<u8>, AllocError> {
    vec![in heap; 0u8; 32 * block_count(n as usize)]
}

// As `flip_first` of `vectors`: the two programs share no crate for it.
fn xor_first(bytes: &mut [u8], value: u8) {
    if let Some(first) = bytes.first_mut() {
        *first ^= value;
    }
}

// Seals and opens stand in functions of their own, so that they are compiled apart from the meter's loop.
#[inline(never)]
fn sealed_into<K: Permutation>(text: &[u8], room: &mut [u8]) -> Result<Sheet<K>, Refusal> {
    let mut holder = MemoryHolder::new(room, 0);
    Sheet::<K>::seal(CONTEXT, text, &mut holder)
}

#[inline(never)]
fn opened_from<K: Permutation>(blocks: &[u8], tag: &[u8]) -> Result<Sheet<K>, Refusal> {
    let holder = ReceivedHolder::new(blocks);
    Sheet::<K>::open(CONTEXT, tag, &holder)
}

// A permutation of one block, or its inverse.
pub(crate) fn measure_block<N: Display + Drop, F: Fn([u8; 32]) -> [u8; 32] + Drop>(
    meter: &mut Meter<'_>,
    name: N,
    permutation: F,
) -> Result<(), Failure>
    requires { F.IsAlwaysCallable permutation }
{
    let mut block = [0; 32];
    let load = Load {
        calls: 100,
        bytes: 32,
    };
    meter.measure(name, load, || {
        block = permutation(block);
        Ok(block[0])
    })
}

// The MAC of a plate. Meter, kind and size by themselves, here and below: a struct of them would be taken apart at once.
pub(crate) fn measure_plate<K: Permutation>(
    meter: &mut Meter<'_>,
    kind: &str,
    n: u32,
) -> Result<(), Failure> {
    let mut plate = zeros(meter.rt.alloc(), n)?;
    let load = Load {
        calls: 10,
        bytes: n,
    };
    meter.measure(format_args!("{kind} plate of {n}"), load, || {
        let [first, ..] = plate_mac::<K>(&KEY, plate.as_slice())?;
        xor_first(plate.as_mut_slice(), first);
        Ok(first)
    })
}

// The sealing of a text, up to its tag.
pub(crate) fn measure_sealing<K: Permutation>(
    meter: &mut Meter<'_>,
    kind: &str,
    n: u32,
) -> Result<(), Failure> {
    let mut text = zeros(meter.rt.alloc(), n)?;
    let mut room = room_for(meter.rt.alloc(), n)?;
    let load = Load { calls: 1, bytes: n };
    meter.measure(format_args!("{kind} seal {n}"), load, || {
        sealed_into::<K>(text.as_slice(), room.as_mut_slice())?;
        let last = room.last().copied().unwrap_or(0);
        xor_first(text.as_mut_slice(), last);
        Ok(last)
    })
}

// The opening of a sheet, up to its length.
pub(crate) fn measure_opening<K: Permutation>(
    meter: &mut Meter<'_>,
    kind: &str,
    n: u32,
) -> Result<(), Failure> {
    let text = zeros(meter.rt.alloc(), n)?;
    let mut blocks = room_for(meter.rt.alloc(), n)?;
    let tag = sealed_into::<K>(text.as_slice(), blocks.as_mut_slice())?.tag();
    let load = Load { calls: 1, bytes: n };
    meter.measure(format_args!("{kind} open {n}"), load, || {
        let sheet = opened_from::<K>(blocks.as_slice(), &tag)?;
        Ok((sheet.length() % 256) as u8)
    })
}
