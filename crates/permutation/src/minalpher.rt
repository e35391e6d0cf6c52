// Minalpher-P at any number of rounds.
ghost use Rattle.std.specs.Prelude.{◌≡◌, ℕ, refl};
ghost use Rattle.permutation.specs.Minalpher.{forward, backward};
ghost use Rattle.permutation.specs.Inverses;

use crate::Permutation;
use crate::nibbles::NibbleRow;
use crate::rows::Row;
use crate::state::State;
use std::marker::PhantomData;

// A kind that is the permutation itself: it has all of its seventeen rounds.
pub trait FullRounds: Permutation {
    ghost full_forth: { Self.Permutation.forth ≡ forward 17 };

    ghost full_back: { Self.Permutation.back ≡ backward 17 };
}

// A number of rounds as a type: one can be computed from another's, which no const argument can.
pub trait Rounds {
    ghost number: { ℕ };

    fn count() -> usize
        ensures { result ≡ number };
}

#[derive(Clone, Copy)]
pub struct Seventeen;

#[derive(Clone, Copy)]
pub struct One;

#[derive(Clone, Copy)]
pub struct Zero;

impl Rounds for Seventeen {
    ghost number = { 17 };

    fn count() -> usize {
        17 // the whole permutation
    }
}

impl Rounds for One {
    ghost number = { 1 };

    fn count() -> usize {
        1
    }
}

impl Rounds for Zero {
    ghost number = { 0 };

    fn count() -> usize {
        0
    }
}

// A kind that has as many rounds as `R` says, whatever its name and its parameters are.
pub trait HasRounds<R: Rounds>: Permutation {
    ghost told_forth: { Self.Permutation.forth ≡ forward R.Rounds.number };

    ghost told_back: { Self.Permutation.back ≡ backward R.Rounds.number };
}

// The permutation with `ROUNDS` rounds, on rows that are kept as `W`.
pub struct MinalpherP<W, const ROUNDS: usize> {
    rows: PhantomData<W>,
}

impl<W: Row, const ROUNDS: usize> Permutation for MinalpherP<W, ROUNDS> {
    ghost forth = { forward ROUNDS };

    ghost back = { backward ROUNDS };

    ghost inverse = { Inverses.inverse ROUNDS };

    #[tactic(auto, unfolding(crate::specs::Minalpher::forward))]
    fn forward(block: [u8; 32]) -> [u8; 32] {
        State::<W>::read(&block).rounds(ROUNDS).closed()
    }

    #[tactic(auto, unfolding(crate::specs::Minalpher::backward))]
    fn backward(block: [u8; 32]) -> [u8; 32] {
        State::<W>::read(&block).rounds_back(ROUNDS).closed()
    }
}

// The same with as many rounds as `R` says.
pub struct Counted<W, R> {
    rows: PhantomData<W>,
    rounds: PhantomData<R>,
}

impl<W: Row, R: Rounds> Permutation for Counted<W, R> {
    ghost forth = { forward R.Rounds.number };

    ghost back = { backward R.Rounds.number };

    ghost inverse = { Inverses.inverse R.Rounds.number };

    #[tactic(auto, unfolding(crate::specs::Minalpher::forward))]
    fn forward(block: [u8; 32]) -> [u8; 32] {
        State::<W>::read(&block).rounds(R::count()).closed()
    }

    #[tactic(auto, unfolding(crate::specs::Minalpher::backward))]
    fn backward(block: [u8; 32]) -> [u8; 32] {
        State::<W>::read(&block).rounds_back(R::count()).closed()
    }
}

// On rows of nibbles, and the same by a type of rounds.
pub type Matrices<const ROUNDS: usize> = MinalpherP<NibbleRow, ROUNDS>;

pub type MatricesOf<R> = Counted<NibbleRow, R>;

// The permutation itself.
pub type Minalpher = Matrices<17>;

impl FullRounds for Minalpher {
    ghost full_forth = { refl };

    ghost full_back = { refl };
}

// Two short ones for checks by hand.
pub type OneRound = Matrices<1>;

impl HasRounds<One> for OneRound {
    ghost told_forth = { refl };

    ghost told_back = { refl };
}

pub type ZeroRounds = Matrices<0>;

impl HasRounds<Zero> for ZeroRounds {
    ghost told_forth = { refl };

    ghost told_back = { refl };
}
