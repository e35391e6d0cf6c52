// The modes of Minalpher: masks, the tweakable cipher, label sums and the MAC of plates.
#![tactic(auto)]

pub mod cipher;
pub mod keys;
pub mod mask;
pub mod plate;
pub mod refusal;
pub mod sums;
pub mod worked;
