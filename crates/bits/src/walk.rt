// A walk over the set bits of a word.
ghost use Rattle.std.specs.Prelude.{◌-◌};
ghost use Rattle.std.specs.Iterator.{at_most};
ghost use Rattle.bits.specs.Bit.{has};
ghost use Rattle.bits.specs.Walk.{WalkStep};

use crate::next_bit;

// The set bits of a word from a bit on, ascending.
#[derive(Clone, Drop)]
pub struct Ones {
    pub(crate) word: u64,
    pub(crate) from: usize,
}

impl Iterator for Ones {
    type Item = usize;

    ghost next_gives = { WalkStep 64 has (λ s. s.word) (λ s. s.from) };

    ghost remaining = { λ s. at_most (64 - s.from) };

    fn next(&mut self) -> Option<usize> {
        let j = next_bit(self.word, self.from)?;
        self.from = j + 1;
        Some(j)
    }
}
