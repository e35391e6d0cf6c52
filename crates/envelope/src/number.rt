// The lengths in an envelope: groups of seven bits, the low group first, the top bit set in every byte but the last.
ghost use Rattle.std.specs.Prelude.{◌≡◌, ◌%◌, ◌<◌, ◌≤◌, length, IfSome};
ghost use Rattle.envelope.specs.Numbers.{groups, number_in, ReadsExactly, WritesExactly};

// The top bit, which every byte of a number has but the last.
pub(crate) const TOP: u8 = 0x80;

// How many values a group has.
pub(crate) const GROUP: usize = 128;

// How many values two groups have together.
const TWO_GROUPS: usize = GROUP * GROUP;

// The group that a byte carries.
fn group(byte: u8) -> usize
    ensures { result ≡ byte % 128 }
{
    usize::from(byte % TOP)
}

// The number that the bytes begin with and how many bytes it takes, if it ends within three bytes and within these.
#[tactic(auto, using(crate::proofs::Numbering::exact_reading), unfolding(crate::specs::Numbers::number_in, crate::specs::Numbers::number_within))]
pub fn read_number(bytes: &[u8]) -> Option<(usize, usize)>
    ensures value { result ≡ number_in bytes.now }
    ensures exactly { ReadsExactly bytes.now result }
    ensures fits { IfSome result (λ p. (p.1 ≤ length bytes.now) × (p.0 < 2097152)) }
    ensures short { IfSome result (λ p. p.1 ≤ 3) }
{
    match *bytes {
        [a, ..] if a < TOP => Some((group(a), 1)),
        [a, b, ..] if b < TOP => Some((group(a) + GROUP * group(b), 2)),
        [a, b, c, ..] if c < TOP => Some((group(a) + GROUP * (group(b) + GROUP * group(c)), 3)),
        _ => None,
    }
}

// How many bytes a number takes where it is written.
#[tactic(auto, using(crate::proofs::Numbering::writes_exactly), unfolding(crate::specs::Numbers::groups))]
pub fn number_length(n: usize) -> usize
    ensures value { result ≡ length (groups n) }
    ensures form { WritesExactly n (groups n) }
{
    match n {
        ..GROUP => 1,
        GROUP..TWO_GROUPS => 2,
        _ => 3,
    }
}
