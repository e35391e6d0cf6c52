// The state is two matrices of four rows, whose layers are S, T, M and the constant of a round.
ghost use Rattle.std.specs.Prelude.{◌≡◌, ◌+◌, ◌*◌, ◌≤◌};
ghost use Rattle.std.proofs.lemmas.List.Edits.{sets};
ghost use Rattle.permutation.specs.Minalpher.{matrix_from, sub_matrix, S, shuffled, unshuffled, T};
ghost use Rattle.permutation.specs.Minalpher.{xor_matrix, xor_state, mixed, M, E};
ghost use Rattle.permutation.specs.Minalpher.{state_of, block_of, round, rounds, rounds_back};
ghost use Rattle.permutation.specs.Packed.{matrix_bytes};
ghost use Rattle.permutation.specs.Views.{matrix_view, state_view};

use crate::rows::{IndexList, Row};
use std::ops::BitXor;

// Rows in named fields: a generic struct with an array of a type parameter would owe a bound on its size.
#[derive(Clone, Copy)]
struct Matrix<W> {
    r0: W,
    r1: W,
    r2: W,
    r3: W,
}

#[derive(Clone, Copy)]
pub(crate) struct State<W> {
    a: Matrix<W>,
    b: Matrix<W>,
}

impl<W: Row> Matrix<W> {
    // The four rows in the sixteen bytes of a block from byte `at` on.
    fn read(block: &[u8; 32], at: usize) -> Matrix<W>
        requires { at + 16 ≤ 32 }
        ensures { matrix_view W.nibbles result ≡ matrix_from block.now (2 * at) }
    {
        Matrix {
            r0: W::read(block, at),
            r1: W::read(block, at + 4),
            r2: W::read(block, at + 8),
            r3: W::read(block, at + 12),
        }
    }

    // Writes the four rows into the sixteen bytes of a block from byte `at` on.
    fn write(self, block: &mut [u8; 32], at: usize)
        requires { at + 16 ≤ 32 }
        ensures { block.new ≡ sets block.old at (matrix_bytes (matrix_view W.nibbles self)) }
    {
        self.r0.write(block, at);
        self.r1.write(block, at + 4);
        self.r2.write(block, at + 8);
        self.r3.write(block, at + 12);
    }

    fn substituted(self) -> Matrix<W>
        ensures { matrix_view W.nibbles result ≡ sub_matrix (matrix_view W.nibbles self) }
    {
        Matrix {
            r0: self.r0.substituted(),
            r1: self.r1.substituted(),
            r2: self.r2.substituted(),
            r3: self.r3.substituted(),
        }
    }

    fn shuffled(self) -> Matrix<W>
        ensures { matrix_view W.nibbles result ≡ shuffled (matrix_view W.nibbles self) }
    {
        Matrix {
            r0: self.r0.picked(IndexList::P1),
            r1: self.r1.picked(IndexList::Q1),
            r2: self.r2.picked(IndexList::P2),
            r3: self.r3.picked(IndexList::Q2),
        }
    }

    // Undoes `shuffled`. Two functions: one that is given the four lists takes 1.5 times the time of the same in C, where
    // 1.3 is the bar, unless three functions are inlined by force.
    fn unshuffled(self) -> Matrix<W>
        ensures { matrix_view W.nibbles result ≡ unshuffled (matrix_view W.nibbles self) }
    {
        Matrix {
            r0: self.r0.picked(IndexList::P2),
            r1: self.r1.picked(IndexList::Q2),
            r2: self.r2.picked(IndexList::P1),
            r3: self.r3.picked(IndexList::Q1),
        }
    }

    // Each row is the exclusive or of three of the old rows.
    fn mixed(self) -> Matrix<W>
        ensures { matrix_view W.nibbles result ≡ mixed (matrix_view W.nibbles self) }
    {
        Matrix {
            r0: self.r0 ^ self.r1 ^ self.r3,
            r1: self.r0 ^ self.r1 ^ self.r2,
            r2: self.r1 ^ self.r2 ^ self.r3,
            r3: self.r0 ^ self.r2 ^ self.r3,
        }
    }
}

impl<W: Row> BitXor for Matrix<W> {
    type Output = Matrix<W>;

    ghost bitxor_gives = { λ m n o. matrix_view W.nibbles o ≡ xor_matrix (matrix_view W.nibbles m) (matrix_view W.nibbles n) };

    fn bitxor(self, other: Matrix<W>) -> Matrix<W> {
        Matrix {
            r0: self.r0 ^ other.r0,
            r1: self.r1 ^ other.r1,
            r2: self.r2 ^ other.r2,
            r3: self.r3 ^ other.r3,
        }
    }
}

impl<W: Row> State<W> {
    // The state of a block.
    pub(crate) fn read(block: &[u8; 32]) -> State<W>
        ensures { state_view W.nibbles result ≡ state_of block.now }
    {
        State {
            a: Matrix::read(block, 0),
            b: Matrix::read(block, 16),
        }
    }

    // The state's block.
    fn block(self) -> [u8; 32]
        ensures { result ≡ block_of (state_view W.nibbles self) }
    {
        let mut block = [0; 32];
        self.a.write(&mut block, 0);
        self.b.write(&mut block, 16);
        block
    }

    // S: each nibble through the S-box.
    fn substituted(self) -> State<W>
        ensures { state_view W.nibbles result ≡ S (state_view W.nibbles self) }
    {
        State {
            a: self.a.substituted(),
            b: self.b.substituted(),
        }
    }

    // T: the nibbles of each row change places, and then the matrices do.
    fn shuffled(self) -> State<W>
        ensures { state_view W.nibbles result ≡ T (state_view W.nibbles self) }
    {
        State {
            a: self.b.unshuffled(),
            b: self.a.shuffled(),
        }
    }

    // M: B becomes A xor B, and then the columns of both are mixed.
    fn mixed(self) -> State<W>
        ensures { state_view W.nibbles result ≡ M (state_view W.nibbles self) }
    {
        State {
            a: self.a.mixed(),
            b: (self.a ^ self.b).mixed(),
        }
    }

    // The constant of round `k`.
    fn constant(k: usize) -> State<W>
        ensures { state_view W.nibbles result ≡ E k }
    {
        State {
            a: Matrix {
                r0: W::zero(),
                r1: W::zero(),
                r2: W::zero(),
                r3: W::zero(),
            },
            b: Matrix {
                r0: W::constant(k, 0),
                r1: W::constant(k, 1),
                r2: W::constant(k, 2),
                r3: W::constant(k, 3),
            },
        }
    }

    // The constant of the inverse's round `k`.
    fn constant_back(k: usize) -> State<W>
        ensures { state_view W.nibbles result ≡ M (E k) }
    {
        State::constant(k).mixed()
    }

    #[tactic(auto, unfolding(crate::specs::Minalpher::round))]
    fn round(self, constant: State<W>) -> State<W>
        ensures { state_view W.nibbles result ≡ round (state_view W.nibbles constant) (state_view W.nibbles self) }
    {
        self.substituted().shuffled().mixed() ^ constant
    }

    // The rounds 0 to `count` - 1.
    #[tactic(auto, unfolding(crate::specs::Minalpher::rounds))]
    pub(crate) fn rounds(self, count: usize) -> State<W>
        ensures { state_view W.nibbles result ≡ rounds count (state_view W.nibbles self) }
    {
        let mut state = self;
        for k in 0..count {
            state = state.round(State::constant(k));
        }
        state
    }

    // The rounds of the inverse: `count` - 1 down to 0.
    #[tactic(auto, unfolding(crate::specs::Minalpher::rounds_back))]
    pub(crate) fn rounds_back(self, count: usize) -> State<W>
        ensures { state_view W.nibbles result ≡ rounds_back count (state_view W.nibbles self) }
    {
        let mut state = self;
        for k in (0..count).rev() {
            state = state.round(State::constant_back(k));
        }
        state
    }

    // What comes after the last round: S and T, and then the state is a block again.
    pub(crate) fn closed(self) -> [u8; 32]
        ensures { result ≡ block_of (T (S (state_view W.nibbles self))) }
    {
        self.substituted().shuffled().block()
    }
}

impl<W: Row> BitXor for State<W> {
    type Output = State<W>;

    ghost bitxor_gives = { λ s t u. state_view W.nibbles u ≡ xor_state (state_view W.nibbles s) (state_view W.nibbles t) };

    fn bitxor(self, other: State<W>) -> State<W> {
        State {
            a: self.a ^ other.a,
            b: self.b ^ other.b,
        }
    }
}
