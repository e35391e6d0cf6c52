// Writes the parts of an envelope, one behind the other.
ghost use Rattle.std.specs.Prelude.{◌≡◌, ◌+◌, ◌*◌, ◌<◌, ◌≤◌, length};
ghost use Rattle.envelope.specs.Layouts.{joined, layout, layout_length};
ghost use Rattle.envelope.specs.Numbers.{groups};
ghost use Rattle.envelope.specs.Writers.{Wrote};
ghost use Rattle.envelope.specs.Writing.{overlaid};

use crate::number::{GROUP, TOP};
use crate::parts::{NONCE_LENGTH, TAG_LENGTH};
use crate::reader::MARK;
use sheet::holder::ReadBlocks;

// A buffer that the caller lends, and the place of the next byte to be written.
#[derive(Drop)]
struct Writer<'a> {
    buffer: &'a mut [u8],
    place: usize,
}

impl<'a> Writer<'a> {
    fn new(buffer: &'a mut [u8]) -> Writer<'a>
        ensures buffer { result.buffer.now ≡ buffer.old }
        ensures place { result.place ≡ 0 }
        ensures tied { result.buffer.ghost_name ≡ buffer.entry.ghost_name }
    {
        Writer { buffer, place: 0 }
    }

    // Writes bytes at the place, and moves behind them.
    fn bytes(&mut self, bytes: &[u8])
        requires { self.old.place + length bytes.now ≤ length self.old.buffer.now }
        ensures { Wrote self.old self.new bytes.now }
    {
        let end = self.place + bytes.len();
        self.buffer[self.place..end].copy_from_slice(bytes);
        self.place = end;
    }

    // Writes a number in its shortest form.
    #[tactic(auto, using(crate::proofs::Numbering::one_group), unfolding(crate::specs::Numbers::groups))]
    fn number(&mut self, n: usize)
        requires { (n < 2097152) × (self.old.place + length (groups n) ≤ length self.old.buffer.now) }
        ensures { Wrote self.old self.new (groups n) }
    {
        let mut rest = n;
        while rest >= GROUP {
            self.bytes(&[(rest % GROUP) as u8 + TOP]);
            rest /= GROUP;
        }
        self.bytes(&[rest as u8]);
    }

    // Writes all blocks of a holder.
    fn blocks<R: ReadBlocks>(&mut self, h: &R)
        requires { self.old.place + 32 * length (R.ReadBlocks.list h.now) ≤ length self.old.buffer.now }
        ensures { Wrote self.old self.new (joined (R.ReadBlocks.list h.now)) }
    {
        for k in 0..h.count() {
            self.bytes(&h.block(k + 1).unwrap());
        }
    }
}

// Writes an envelope to the front of a buffer that has room for it.
#[tactic(auto, using(crate::proofs::Blocks::length_joined))]
pub(crate) fn write_envelope<R: ReadBlocks>(
    out: &mut [u8],
    nonce: [u8; NONCE_LENGTH],
    label: &[u8],
    h: &R,
    tag: [u8; TAG_LENGTH],
)
    requires { (length label.now ≤ 4096) × (layout_length (length label.now) (length (R.ReadBlocks.list h.now)) ≤ length out.old) }
    ensures { out.new ≡ overlaid out.old (layout nonce label.now (R.ReadBlocks.list h.now) tag) }
{
    let mut writer = Writer::new(out);
    writer.bytes(&MARK);
    writer.number(label.len());
    writer.number(h.count());
    writer.bytes(&nonce);
    writer.bytes(label);
    writer.blocks(h);
    writer.bytes(&tag);
}
