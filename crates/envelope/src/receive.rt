// Receives an envelope: takes it apart and opens its sheet over the blocks where they lie.
ghost use Rattle.std.specs.Prelude.{◌≡◌};
ghost use Rattle.envelope.specs.Arrivals.{arrived};
ghost use Rattle.envelope.specs.Receiving.{receive_answer, PartsOpenExactly, ReceivesExactly};

use crate::parts::{Parts, parse};
use modes::keys::Key;
use modes::refusal::Refusal;
use permutation::Permutation;
use sheet::context::Context;
use sheet::received::ReceivedHolder;
use sheet::sheet::Sheet;

// An open sheet, and the parts of the envelope that it came in; its blocks are `parts.blocks`.
#[derive(Drop)]
pub struct Received<'a, K> {
    pub sheet: Sheet<K>,
    pub parts: Parts<'a>,
}

pub fn receive<'a, K: Permutation>(key: &[u8], bytes: &'a [u8]) -> Result<Received<'a, K>, Refusal>
    ensures value { arrived result ≡ receive_answer K.Permutation.forth K.Permutation.back key.now bytes.now }
    ensures exactly { ReceivesExactly K.Permutation.forth K.Permutation.back key.now bytes.now (arrived result) }
    ensures opens { PartsOpenExactly K.Permutation.forth K.Permutation.back key.now bytes.now }
{
    // The key is judged before the envelope.
    Key::new(key)?;
    let parts = parse(bytes)?;
    let holder = ReceivedHolder::new(parts.blocks);
    let context = Context {
        key,
        nonce: parts.nonce,
        label: parts.label,
    };
    let sheet = Sheet::<K>::open(context, parts.tag, &holder)?;
    Ok(Received { sheet, parts })
}
