// A walk over marked places.
ghost use Rattle.std.specs.Prelude.{◌-◌};
ghost use Rattle.std.specs.Iterator.{at_most};
ghost use Rattle.bits.specs.Walk.{WalkStep};
ghost use Rattle.marks.specs.Marks.{marked};

use crate::look::next_marked;

// The marked places from a place on, ascending.
#[derive(Clone, Drop)]
pub struct Places<'a> {
    pub(crate) marks: &'a [u64],
    pub(crate) from: usize,
}

impl Iterator for Places<'_> {
    type Item = usize;

    ghost next_gives = { WalkStep 1024 marked (λ s. s.marks.now) (λ s. s.from) };

    ghost remaining = { λ s. at_most (1024 - s.from) };

    fn next(&mut self) -> Option<usize> {
        let i = next_marked(self.marks, self.from)?;
        self.from = i + 1;
        Some(i)
    }
}
