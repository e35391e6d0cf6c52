// Refusals in words. Functions and a type of its own, and no `Display` of theirs: the crate of refusals knows no text.
ghost use Rattle.std.specs.Prelude.{◌≡◌, Some};
ghost use Rattle.text.specs.Words.{layer_text, reason_text, refusal_text};

use modes::refusal::{Layer, Reason, Refusal};
use std::fmt;

pub fn layer_name(layer: Layer) -> &'static str
    ensures { result.now ≡ layer_text layer }
{
    match layer {
        Layer::Cipher => "cipher",
        Layer::Holder => "holder",
        Layer::Sheet => "sheet",
        Layer::Envelope => "envelope",
    }
}

pub fn reason_words(reason: Reason) -> &'static str
    ensures { result.now ≡ reason_text reason }
{
    match reason {
        Reason::KeyLength => "the key is not 16 bytes",
        Reason::NonceLength => "the nonce is not 13 bytes",
        Reason::TagLength => "the tag is not 16 bytes",
        Reason::Mark => "the envelope does not begin with 52 53",
        Reason::Number => "a number in the envelope is malformed or out of range",
        Reason::EnvelopeLength => "the envelope's length is not what its numbers say",
        Reason::LabelLength => "the label or plate is over 4096 bytes",
        Reason::TextLength => "the text would pass 131071 bytes",
        Reason::MaskIndex => "the mask index is out of range",
        Reason::BlockCount => "the holder's count is not what the call needs",
        Reason::Range => "the position or amount exceeds the text",
        Reason::BufferLength => "the buffer has the wrong size",
        Reason::NoSuchBlock => "no block has that number",
        Reason::Limit => "the holder's limit is too low",
        Reason::LabelSum => "the label has another label sum than the sheet",
        Reason::TagMismatch => "the tag disagrees",
        Reason::Padding => "the last block's padding is malformed",
        Reason::SheetsDiffer => "the sheets differ in key, nonce, length or label sum",
        Reason::Clash => "both copies changed a block",
    }
}

// A refusal as its number, layer and place.
#[derive(Clone, Copy)]
pub struct Shown(pub Refusal);

impl fmt::Display for Shown {
    ghost output = { λ s. Some (refusal_text s.0) };

    fn fmt<W: fmt::Write>(&self, f: &mut fmt::Formatter<W>) -> fmt::Result {
        let number = self.0.reason.number();
        let layer = layer_name(self.0.layer);
        let place = self.0.place;
        write!(f, "{number} {layer} {place}")
    }
}
