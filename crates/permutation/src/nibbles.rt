// A row as eight bytes, a nibble in each.
ghost use Rattle.std.specs.Prelude.{◌≡◌, ℕ, ◌+◌, ◌*◌, ◌<◌, ◌≤◌, slice_index};
ghost use Rattle.permutation.specs.Minalpher.{nibble, xor_row};
ghost use Rattle.permutation.specs.Views.{list_of};

use crate::rows::{IndexList, Row};
use std::array;
use std::ops::BitXor;

const SBOX: [u8; 16] = [
    0xB, 0x3, 0x4, 0x1, 0x2, 0x8, 0xC, 0xF, 0x5, 0xD, 0xE, 0x0, 0x6, 0x9, 0xA, 0x7,
];

const P1: [usize; 8] = [6, 7, 1, 0, 2, 3, 4, 5];

const Q1: [usize; 8] = [4, 5, 0, 1, 7, 6, 2, 3];

const P2: [usize; 8] = [3, 2, 4, 5, 6, 7, 0, 1];

const Q2: [usize; 8] = [2, 3, 6, 7, 0, 1, 5, 4];

impl IndexList {
    // The places that the list names.
    fn places(self) -> [usize; 8]
        ensures is { result ≡ list_of self }
        ensures within { (j : ℕ) → j < 8 → slice_index result j < 8 }
    {
        match self {
            IndexList::P1 => P1,
            IndexList::Q1 => Q1,
            IndexList::P2 => P2,
            IndexList::Q2 => Q2,
        }
    }
}

// Nibble `n` of a block: the high one of each byte comes first.
fn nibble(block: &[u8; 32], n: usize) -> u8
    requires { n < 64 }
    ensures { result ≡ nibble block.now n }
{
    let byte = block[n / 2];
    if n % 2 == 0 { byte / 16 } else { byte % 16 }
}

#[derive(Clone, Copy)]
pub struct NibbleRow {
    cells: [u8; 8],
    ghost ok: { (j : ℕ) → j < 8 → slice_index cells j < 16 },
}

impl Row for NibbleRow {
    ghost use Rattle.permutation.specs.Kept.{cells_of};

    ghost nibbles = { cells_of };

    fn read(block: &[u8; 32], at: usize) -> NibbleRow {
        NibbleRow {
            cells: array::from_fn(|j| nibble(block, 2 * at + j)),
        }
    }

    #[tactic(auto, using(crate::proofs::Bytes::put_sets))]
    fn write(self, block: &mut [u8; 32], at: usize) {
        let [n0, n1, n2, n3, n4, n5, n6, n7] = self.cells;
        let bytes = [n0 * 16 + n1, n2 * 16 + n3, n4 * 16 + n5, n6 * 16 + n7];
        block[at..at + 4].copy_from_slice(&bytes);
    }

    fn zero() -> NibbleRow {
        NibbleRow { cells: [0; 8] }
    }

    fn constant(k: usize, i: u8) -> NibbleRow {
        let first = (k % 16) as u8 ^ i;
        NibbleRow {
            cells: [first, first ^ 1, first ^ 2, first ^ 3, 0, 0, 0, 0],
        }
    }

    fn substituted(self) -> NibbleRow {
        NibbleRow {
            cells: self.cells.map(|n| SBOX[usize::from(n)]),
        }
    }

    fn picked(self, list: IndexList) -> NibbleRow {
        NibbleRow {
            cells: list.places().map(|j| self.cells[j]),
        }
    }

    ghost can_xor = { λ r t. tt };

    ghost xor_gives = { λ r t u e. e };
}

impl BitXor for NibbleRow {
    ghost use Rattle.permutation.specs.Kept.{cells_of};

    type Output = NibbleRow;

    ghost bitxor_gives = { λ r t u. cells_of u ≡ xor_row (cells_of r) (cells_of t) };

    fn bitxor(self, other: NibbleRow) -> NibbleRow {
        NibbleRow {
            cells: array::from_fn(|j| self.cells[j] ^ other.cells[j]),
        }
    }
}
