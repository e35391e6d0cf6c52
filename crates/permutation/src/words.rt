// A row in a word of 32 bits, and the permutation on such rows, with no table and no branch on what a block holds.
ghost use Rattle.std.specs.Prelude.{◌≡◌, refl};
ghost use Rattle.permutation.specs.Minalpher.{xor_row};
ghost use Rattle.permutation.specs.Kept.{nibbles_of};

use crate::minalpher::{Counted, FullRounds, MinalpherP};
use crate::rows::{IndexList, Row};
use std::ops::BitXor;

// The first nibble is the highest.
#[derive(Clone, Copy)]
pub struct WordRow {
    word: u32,
}

impl Row for WordRow {
    ghost nibbles = { nibbles_of };

    #[tactic(auto, using(crate::proofs::Bytes::read_part))]
    fn read(block: &[u8; 32], at: usize) -> WordRow {
        WordRow {
            word: u32::from_be_bytes(*block[at..].first_chunk().unwrap()),
        }
    }

    #[tactic(auto, using(crate::proofs::Bytes::put_sets, crate::proofs::Bytes::joined))]
    fn write(self, block: &mut [u8; 32], at: usize) {
        block[at..at + 4].copy_from_slice(&self.word.to_be_bytes());
    }

    #[tactic(auto, unfolding(crate::specs::Packed::bits))]
    fn zero() -> WordRow {
        WordRow { word: 0 }
    }

    // The product has one nibble four times, which are then xored with 0, 1, 2 and 3.
    fn constant(k: usize, i: u8) -> WordRow {
        let first = (k % 16) as u32 ^ u32::from(i);
        WordRow {
            word: (0x1111_0000 * first) ^ 0x0123_0000,
        }
    }

    // S on all nibbles at once. Until the last expression only the lowest bit of each nibble counts: there a, b, c and d
    // have the bits of the nibble, the lowest in a, and s0 to s3 those of its image. No other bit survives the masks.
    #[tactic(auto, using(crate::proofs::Planes::substituted))]
    fn substituted(self) -> WordRow {
        let a = self.word;
        let b = a >> 1;
        let c = a >> 2;
        let d = a >> 3;
        let e = a ^ b;
        let f = c ^ (a & b);
        let s3 = e ^ (d | f) ^ 0x1111_1111;
        let g = d ^ s3;
        let h = a | g;
        let s0 = (f & g) ^ h;
        let s1 = (c | s3) ^ (e & h);
        let s2 = c ^ h ^ (b | s1);
        WordRow {
            word: (s0 & 0x1111_1111)
                | ((s1 << 1) & 0x2222_2222)
                | ((s2 << 2) & 0x4444_4444)
                | ((s3 << 3) & 0x8888_8888),
        }
    }

    fn picked(self, list: IndexList) -> WordRow {
        match list {
            // Bytes 3, 0, 1, 2, and the nibbles of byte 0 change places.
            IndexList::P1 => {
                let w = self.word.rotate_right(8);
                WordRow {
                    word: (w & 0xFF00_FFFF) | ((w & 0x00F0_0000) >> 4) | ((w & 0x000F_0000) << 4),
                }
            }
            // Bytes 2, 0, 3, 1, and the nibbles of byte 3 change places.
            IndexList::Q1 => {
                let w = self.word.rotate_right(16);
                WordRow {
                    word: (w & 0xFF00_00FF)
                        | ((w & 0x0000_FF00) << 8)
                        | ((w & 0x00F0_0000) >> 12)
                        | ((w & 0x000F_0000) >> 4),
                }
            }
            // Bytes 1, 2, 3, 0, and the nibbles of byte 1 change places.
            IndexList::P2 => {
                let w = self.word.rotate_right(24);
                WordRow {
                    word: (w & 0x00FF_FFFF) | ((w & 0xF000_0000) >> 4) | ((w & 0x0F00_0000) << 4),
                }
            }
            // Bytes 1, 3, 0, 2, and the nibbles of byte 2 change places.
            IndexList::Q2 => {
                let w = self.word.rotate_right(16);
                WordRow {
                    word: (w & 0x00FF_FF00)
                        | ((w & 0x0000_00FF) << 24)
                        | ((w & 0xF000_0000) >> 28)
                        | ((w & 0x0F00_0000) >> 20),
                }
            }
        }
    }

    ghost can_xor = { λ r t. tt };

    ghost xor_gives = { λ r t u e. e };
}

impl BitXor for WordRow {
    type Output = WordRow;

    ghost bitxor_gives = { λ r t u. nibbles_of u ≡ xor_row (nibbles_of r) (nibbles_of t) };

    #[tactic(auto, using(crate::proofs::Places::xor_words))]
    fn bitxor(self, other: WordRow) -> WordRow {
        WordRow {
            word: self.word ^ other.word,
        }
    }
}

// On rows in words, and the same by a type of rounds.
pub type Words<const ROUNDS: usize> = MinalpherP<WordRow, ROUNDS>;

pub type WordsOf<R> = Counted<WordRow, R>;

pub type RowWords = Words<17>;

impl FullRounds for RowWords {
    ghost full_forth = { refl };

    ghost full_back = { refl };
}
