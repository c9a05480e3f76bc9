// Bits of a 64-bit word. Callers go by the laws of proofs/BitLaws.antt and never unfold `has`.
#![tactic(auto)]

ghost use Rattle.std.specs.Prelude.{◌≡◌, cond, not, ◌&&◌, ◌||◌, ℕ, ◌-◌, ◌%◌, eqb};
ghost use Rattle.bits.specs.Bit.{has, with_bit};
ghost use Rattle.bits.specs.Sets.{lowest, found_below, count_to};

pub mod walk;

use crate::walk::Ones;

// Is bit j mod 64 of w set?
pub fn test_bit(w: u64, j: usize) -> bool
    ensures { result ≡ has w (j % 64) }
{
    (w >> (j % 64)) % 2 == 1
}

// w with bit j mod 64 set.
pub fn with_bit(w: u64, j: usize) -> u64
    ensures { result ≡ with_bit w (j % 64) }
{
    w | (1 << (j % 64))
}

// The bits of w that v lacks.
pub fn lacking(w: u64, v: u64) -> u64
    ensures { (j : ℕ) → has result j ≡ (has w j && not (has v j)) }
{
    w & !v
}

// The bits of either word.
pub fn either(w: u64, v: u64) -> u64
    ensures { (j : ℕ) → has result j ≡ (has w j || has v j) }
{
    w | v
}

// A column of a table of bits, with bit y mod 64 set too where the row of y has bit a mod 64.
pub fn column_with(column: u64, row: u64, a: usize, y: usize) -> u64
    ensures { result ≡ cond (has row (a % 64)) (with_bit column (y % 64)) column }
{
    if test_bit(row, a) {
        return with_bit(column, y);
    }
    column
}

// The lowest set bit of w from bit j on, where there is one.
pub fn next_bit(w: u64, j: usize) -> Option<usize>
    ensures { result ≡ found_below 64 (lowest (has w) j (64 - j)) }
{
    if 64 <= j || w >> j == 0 {
        return None;
    }
    Some(j + (w >> j).trailing_zeros() as usize)
}

// w with its lowest set bit cleared; 0 for 0.
pub fn without_lowest(w: u64) -> u64
    ensures { (j : ℕ) → has result j ≡ (has w j && not (eqb (lowest (has w) 0 64) j)) }
{
    if w == 0 {
        return 0;
    }
    w & (w - 1)
}

// How many bits of w are set.
pub fn count_bits(w: u64) -> u32
    ensures { result ≡ count_to (has w) 64 }
{
    w.count_ones()
}

// The set bits of w, ascending.
pub fn ones(w: u64) -> Ones
    ensures { result ≡ record { word = w; from = 0 } }
{
    Ones { word: w, from: 0 }
}
