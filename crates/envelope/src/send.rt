// Sends a sheet: writes its envelope.
ghost use Rattle.std.specs.Prelude.{◌≡◌, ◌-◌, ◌^◌, min, length, take, is_ok, IfOk, if◌then◌else◌};
ghost use Rattle.envelope.specs.Layouts.{layout_length};
ghost use Rattle.envelope.specs.Sending.{sent, send_answer, Arrives};
ghost use Rattle.envelope.specs.Writing.{overlaid};

use crate::number::number_length;
use crate::parts::{BLOCK_LENGTH, NONCE_LENGTH, TAG_LENGTH};
use crate::reader::MARK;
use crate::writing::write_envelope;
use modes::refusal::{Layer, Reason, Refusal};
use permutation::Permutation;
use sheet::holder::ReadBlocks;
use sheet::sheet::Sheet;
use sheet::state::block_count;

// How long the envelope of a sheet is, with a label of so many bytes and so many blocks; the most a usize has where it is longer.
pub fn envelope_length(label: usize, count: usize) -> usize
    ensures { result ≡ min (layout_length label count) (2 ^ 64 - 1) }
{
    count
        .saturating_mul(BLOCK_LENGTH)
        .saturating_add(label)
        .saturating_add(number_length(label))
        .saturating_add(number_length(count))
        .saturating_add(MARK.len() + NONCE_LENGTH + TAG_LENGTH)
}

// Writes the envelope of a sheet, under a label that has the sheet's label sum, to the front of a buffer; answers how many
// bytes that are.
pub fn send<K: Permutation, R: ReadBlocks>(
    sheet: &Sheet<K>,
    h: &R,
    label: &[u8],
    out: &mut [u8],
) -> Result<usize, Refusal>
    ensures value { result ≡ send_answer K.Permutation.forth K.Permutation.back sheet.now.state (R.ReadBlocks.list h.now) label.now (length out.old) }
    ensures after { out.new ≡ (if is_ok result then overlaid out.old (sent K.Permutation.forth K.Permutation.back sheet.now.state (R.ReadBlocks.list h.now) label.now) else out.old) }
    ensures arrives { IfOk result (λ n. Arrives K.Permutation.forth K.Permutation.back sheet.now.state (R.ReadBlocks.list h.now) label.now (take n out.new)) }
{
    let nonce = sheet.nonce();
    let own = sheet.carries(label)?;
    let count = h.count();
    if count != block_count(sheet.length()) {
        return Err(Refusal::new(Layer::Sheet, Reason::BlockCount, 0));
    }
    let size = envelope_length(label.len(), count);
    if out.len() < size {
        return Err(Refusal::new(Layer::Envelope, Reason::BufferLength, 0));
    }
    if !own {
        return Err(Refusal::new(Layer::Envelope, Reason::LabelSum, 0));
    }
    write_envelope(out, nonce, label, h, sheet.tag());
    Ok(size)
}
