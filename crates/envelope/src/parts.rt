// The parts of an envelope, as parts of the bytes that it was taken from.
ghost use Rattle.std.specs.Prelude.{◌≡◌};
ghost use Rattle.envelope.specs.Parsing.{parse_answer, ParsesExactly};
ghost use Rattle.envelope.specs.Views.{parted};

use crate::reader::Reader;
use modes::refusal::{Layer, Reason, Refusal};
use modes::sums::MAX_LABEL;

// The most blocks that a sheet has.
pub const MAX_BLOCKS: usize = 4096;

// The bytes of a nonce.
pub(crate) const NONCE_LENGTH: usize = 13;

// The bytes of a sealed block.
pub(crate) const BLOCK_LENGTH: usize = 32;

// The bytes of a tag.
pub(crate) const TAG_LENGTH: usize = 16;

#[derive(Clone, Copy)]
pub struct Parts<'a> {
    pub nonce: &'a [u8],
    pub label: &'a [u8],
    // The sealed blocks, one behind the other.
    pub blocks: &'a [u8],
    pub tag: &'a [u8],
}

// Takes an envelope apart.
#[tactic(auto, using(crate::proofs::Laying::exact_parsing))]
pub fn parse(bytes: &[u8]) -> Result<Parts<'_>, Refusal>
    ensures value { parted result ≡ parse_answer bytes.now }
    ensures exactly { ParsesExactly bytes.now (parted result) }
{
    let mut reader = Reader::new(bytes);
    if !reader.mark() {
        return Err(Refusal::new(Layer::Envelope, Reason::Mark, 0));
    }
    let label = reader.number_within(0, MAX_LABEL)?;
    let count = reader.number_within(1, MAX_BLOCKS)?;
    let told = reader.place() + NONCE_LENGTH + label + BLOCK_LENGTH * count + TAG_LENGTH;
    if bytes.len() != told {
        return Err(Refusal::new(Layer::Envelope, Reason::EnvelopeLength, told));
    }
    Ok(Parts {
        nonce: reader.part(NONCE_LENGTH),
        label: reader.part(label),
        blocks: reader.part(BLOCK_LENGTH * count),
        tag: reader.part(TAG_LENGTH),
    })
}
