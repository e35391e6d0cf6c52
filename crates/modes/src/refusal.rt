// Why a call is declined: the reason, the layer that it belongs to, and a place.
ghost use Rattle.std.specs.Prelude.{◌≡◌};
ghost use Rattle.modes.specs.Refusals.{number_of, refusal};

// The reasons, each by its number.
#[derive(Clone, Copy)]
pub enum Reason {
    KeyLength = 1,
    NonceLength = 2,
    TagLength = 3,
    Mark = 4,
    Number = 5,
    EnvelopeLength = 6,
    LabelLength = 7,
    TextLength = 8,
    MaskIndex = 9,
    BlockCount = 10,
    Range = 11,
    BufferLength = 12,
    NoSuchBlock = 13,
    Limit = 14,
    LabelSum = 15,
    TagMismatch = 16,
    Padding = 17,
    SheetsDiffer = 18,
    Clash = 19,
}

#[derive(Clone, Copy)]
pub enum Layer {
    Cipher,
    Holder,
    Sheet,
    Envelope,
}

#[derive(Clone, Copy)]
pub struct Refusal {
    pub reason: Reason,
    pub layer: Layer,
    // A block, a byte or a length, as the reason has it; 0 where it has none. A number and no `Option`: callers are told the 0.
    pub place: usize,
}

impl Reason {
    pub fn number(self) -> u8
        ensures { result ≡ number_of self }
    {
        self as u8
    }
}

impl Refusal {
    // The refusal that a call of the layer `caller` finds. The place is told at each call, 0 too, as the list of refusals has it.
    pub fn new(caller: Layer, reason: Reason, place: usize) -> Refusal
        ensures { result ≡ refusal caller reason place }
    {
        let layer = match reason {
            Reason::KeyLength
            | Reason::NonceLength
            | Reason::TagLength
            | Reason::LabelLength
            | Reason::MaskIndex => Layer::Cipher,
            Reason::Mark | Reason::Number | Reason::EnvelopeLength | Reason::LabelSum =>
                Layer::Envelope,
            Reason::BufferLength | Reason::Limit | Reason::TagMismatch => caller,
            Reason::NoSuchBlock => Layer::Holder,
            Reason::TextLength
            | Reason::BlockCount
            | Reason::Range
            | Reason::Padding
            | Reason::SheetsDiffer
            | Reason::Clash => Layer::Sheet,
        };
        Refusal {
            reason,
            layer,
            place,
        }
    }
}
