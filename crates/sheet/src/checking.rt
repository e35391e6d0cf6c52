// Declining a call: of a holder by the block's length, its number and the room, of a sheet by the holder's count and the bytes' range.
ghost use Rattle.std.specs.Prelude.{◌≡◌, [], ◌∷◌};
ghost use Rattle.modes.specs.Refusals.{answer};
ghost use Rattle.sheet.specs.Calls.{miscounted, read_answer};
ghost use Rattle.sheet.specs.Holders.{bad_buffer, none_of, add_answer, drop_answer};

use crate::holder::ReadBlocks;
use crate::state::State;
use modes::refusal::{Layer, Reason, Refusal};

impl State {
    // Declines a holder with another count than the sheet's.
    pub(crate) fn check_count<R: ReadBlocks>(self, h: &R) -> Result<(), Refusal>
        ensures { result ≡ answer (miscounted self (R.ReadBlocks.list h.now) ∷ []) tt }
    {
        if h.count() != self.blocks() {
            return Err(Refusal::new(Layer::Sheet, Reason::BlockCount, 0));
        }
        Ok(())
    }

    // Declines such a holder, and bytes that do not lie within the text.
    pub(crate) fn check_range<R: ReadBlocks>(
        self,
        h: &R,
        at: usize,
        amount: usize,
    ) -> Result<(), Refusal>
        ensures { result ≡ read_answer self (R.ReadBlocks.list h.now) at amount }
    {
        self.check_count(h)?;
        if at > self.length || amount > self.length - at {
            return Err(Refusal::new(Layer::Sheet, Reason::Range, 0));
        }
        Ok(())
    }
}

// Declines a buffer of another length than a block's.
fn check_buffer(buffer: &[u8]) -> Result<(), Refusal>
    ensures { result ≡ answer (bad_buffer buffer.now ∷ []) tt }
{
    if buffer.len() != 32 {
        return Err(Refusal::new(Layer::Holder, Reason::BufferLength, 0));
    }
    Ok(())
}

// Declines such a buffer, and the number of none of `count` blocks. It takes the count, since a holder's own `get` calls it.
pub(crate) fn check_place(count: usize, k: usize, buffer: &[u8]) -> Result<(), Refusal>
    ensures { result ≡ answer (bad_buffer buffer.now ∷ none_of count k ∷ []) tt }
{
    check_buffer(buffer)?;
    if k == 0 || k > count {
        return Err(Refusal::new(Layer::Holder, Reason::NoSuchBlock, k));
    }
    Ok(())
}

// Declines such a buffer, and one block more than there is room for.
pub(crate) fn check_room<R: ReadBlocks>(h: &R, block: &[u8]) -> Result<(), Refusal>
    ensures { result ≡ add_answer (R.ReadBlocks.room h.now) (R.ReadBlocks.list h.now) block.now }
{
    check_buffer(block)?;
    if h.count() >= h.limit() {
        return Err(Refusal::new(Layer::Holder, Reason::Limit, 0));
    }
    Ok(())
}

// Declines a holder with no block.
pub(crate) fn check_left<R: ReadBlocks>(h: &R) -> Result<(), Refusal>
    ensures { result ≡ drop_answer (R.ReadBlocks.list h.now) }
{
    if h.count() == 0 {
        return Err(Refusal::new(Layer::Holder, Reason::NoSuchBlock, 0));
    }
    Ok(())
}
