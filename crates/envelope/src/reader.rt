// Reads the bytes of an envelope from front to back: the mark, the numbers and the parts.
ghost use Rattle.std.specs.Prelude.{◌≡◌, ◌+◌, ◌^◌, ◌<◌, ◌≤◌, [], ◌∷◌, length, take, is_ok, IfOk, if◌then◌else◌};
ghost use Rattle.modes.specs.Refusals.{answer};
ghost use Rattle.modes.specs.Sums.{same};
ghost use Rattle.envelope.specs.Layouts.{mark as mark_bytes};
ghost use Rattle.envelope.specs.Numbers.{number_in};
ghost use Rattle.envelope.specs.Parsing.{bad_number, value_of, taken_of};
ghost use Rattle.envelope.specs.Readers.{rest_of, moved};

use crate::number::read_number;
use modes::refusal::{Layer, Reason, Refusal};

// What every envelope begins with.
pub const MARK: [u8; 2] = [0x52, 0x53];

// The bytes, and the place of the next one to be read.
#[derive(Drop)]
pub struct Reader<'a> {
    pub(crate) bytes: &'a [u8],
    pub(crate) place: usize,
}

impl<'a> Reader<'a> {
    pub fn new(bytes: &'a [u8]) -> Reader<'a>
        ensures bytes { result.bytes ≡ bytes.entry }
        ensures place { result.place ≡ 0 }
    {
        Reader { bytes, place: 0 }
    }

    pub fn place(&self) -> usize
        ensures { result ≡ self.now.place }
    {
        self.place // counted from 0
    }

    // What has not been read yet.
    pub fn rest(&self) -> &'a [u8]
        ensures value { result.now ≡ rest_of self.now }
        ensures fits { self.now.place + length result.now < 2 ^ 64 }
    {
        &self.bytes[self.place.min(self.bytes.len())..]
    }

    // Whether the mark stands here; it is read if so.
    pub fn mark(&mut self) -> bool
        ensures value { result ≡ same (take 2 (rest_of self.old)) mark_bytes }
        ensures after { self.new ≡ (if result then moved self.old 2 else self.old) }
    {
        let found = self.rest().starts_with(&MARK);
        if found {
            self.place += MARK.len();
        }
        found
    }

    // The number that stands here, and how many bytes it took.
    pub fn number(&mut self) -> Option<(usize, usize)>
        ensures value { result ≡ number_in (rest_of self.old) }
        ensures after { self.new ≡ moved self.old (taken_of result) }
    {
        let (value, taken) = read_number(self.rest())?;
        self.place += taken;
        Some((value, taken))
    }

    // A number that has to be in a range, bounds included; it is declined at its first byte, and not read then.
    // Two bounds, and no range: one that was iterated to its end answers otherwise, and the clauses would have to tell
    // them apart.
    pub fn number_within(&mut self, low: usize, high: usize) -> Result<usize, Refusal>
        ensures value { result ≡ answer (bad_number low high self.old.bytes.now self.old.place ∷ []) (value_of (number_in (rest_of self.old))) }
        ensures after { self.new ≡ (if is_ok result then moved self.old (taken_of (number_in (rest_of self.old))) else self.old) }
        ensures within { IfOk result (λ n. (low ≤ n) × (n ≤ high)) }
        ensures short { self.new.place ≤ self.old.place + 3 }
    {
        let number = read_number(self.rest());
        let (value, taken) = number
            .filter(|(value, _)| (low..=high).contains(value))
            .ok_or_else(|| Refusal::new(Layer::Envelope, Reason::Number, self.place))?;
        self.place += taken;
        Ok(value)
    }

    // The next n bytes, or all that are left where they are fewer.
    pub fn part(&mut self, n: usize) -> &'a [u8]
        ensures value { result.now ≡ take n (rest_of self.old) }
        ensures after { self.new ≡ moved self.old (length result.now) }
        ensures whole { self.old.place + n ≤ length self.old.bytes.now → self.new ≡ moved self.old n }
    {
        let rest = self.rest();
        let part = &rest[..n.min(rest.len())];
        self.place += part.len();
        part
    }
}
