// What a row of eight nibbles does, however it is kept.
ghost use Rattle.std.specs.Prelude.{◌≡◌, ℕ, ◌+◌, ◌*◌, ◌<◌, ◌≤◌, List};
ghost use Rattle.std.proofs.lemmas.List.Edits.{sets};
ghost use Rattle.permutation.specs.Minalpher.{row_from, sub_row, picked, xor_row, zero_row, constant_row};
ghost use Rattle.permutation.specs.Packed.{bytes};
ghost use Rattle.permutation.specs.Views.{list_of};

use std::ops::BitXor;

// The lists that say where each nibble of a row comes from. P2 undoes P1, and Q2 undoes Q1.
#[derive(Clone, Copy)]
pub enum IndexList {
    P1,
    Q1,
    P2,
    Q2,
}

// A way to keep a row. This crate alone has such ways: its module is private.
pub trait Row: Copy + BitXor<Output = Self> {
    ghost nibbles: { Self → List ℕ };

    // The row in the four bytes of a block from byte `at` on.
    fn read(block: &[u8; 32], at: usize) -> Self
        requires { at + 4 ≤ 32 }
        ensures { nibbles result ≡ row_from block.now (2 * at) };

    // Writes the row into the four bytes of a block from byte `at` on.
    fn write(self, block: &mut [u8; 32], at: usize)
        requires { at + 4 ≤ 32 }
        ensures { block.new ≡ sets block.old at (bytes (nibbles self)) };

    fn zero() -> Self
        ensures { nibbles result ≡ zero_row };

    // Row `i` of the constant of round `k`.
    fn constant(k: usize, i: u8) -> Self
        requires { i < 4 }
        ensures { nibbles result ≡ constant_row k i };

    // Each nibble through the S-box.
    fn substituted(self) -> Self
        ensures { nibbles result ≡ sub_row (nibbles self) };

    // Each nibble comes from where the list says.
    fn picked(self, list: IndexList) -> Self
        ensures { nibbles result ≡ picked (list_of list) (nibbles self) };

    // `^` is the exclusive or, nibble by nibble.
    ghost can_xor: { (r t : Self) → Self.BitXor.can_bitxor r t };

    ghost xor_gives: { (r t u : Self) → Self.BitXor.bitxor_gives r t u → nibbles u ≡ xor_row (nibbles r) (nibbles t) };
}
