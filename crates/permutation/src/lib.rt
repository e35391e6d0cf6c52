// Permutations of blocks of 32 bytes.
#![tactic(auto)]

ghost use Rattle.std.specs.Prelude.{◌≡◌, ℕ, List};
ghost use Rattle.permutation.specs.Blocks.{Inverse};

pub mod minalpher;
mod nibbles;
mod rows;
mod state;
pub mod words;

// A kind of permutation: two functions on blocks, each of which undoes the other. Neither declines.
pub trait Permutation {
    ghost forth: { List ℕ → List ℕ };

    ghost back: { List ℕ → List ℕ };

    fn forward(block: [u8; 32]) -> [u8; 32]
        ensures { result ≡ forth block };

    fn backward(block: [u8; 32]) -> [u8; 32]
        ensures { result ≡ back block };

    ghost inverse: { Inverse forth back };
}
