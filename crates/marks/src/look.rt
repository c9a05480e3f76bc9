// What is marked: one place, the next one, how many, and whether words are marks of a pack.
ghost use Rattle.std.specs.Prelude.{◌≡◌, ◌-◌, get_or};
ghost use Rattle.bits.specs.Sets.{lowest, found_below};
ghost use Rattle.marks.specs.Marks.{marked, marks_fit, mark_count};

use crate::walk::Places;

// Word j of the marks; none past their end.
pub fn mark_word(marks: &[u64], j: usize) -> u64
    ensures { result ≡ get_or marks.now j 0 }
{
    marks.get(j).copied().unwrap_or(0)
}

// Is place i marked?
pub fn is_marked(marks: &[u64], i: usize) -> bool
    ensures { result ≡ marked marks.now i }
{
    bits::test_bit(mark_word(marks, i / 64), i)
}

// The lowest marked place from `from` on, where there is one.
pub fn next_marked(marks: &[u64], from: usize) -> Option<usize>
    ensures { result ≡ found_below 1024 (lowest (marked marks.now) from (1024 - from)) }
{
    for k in from / 64..16 {
        if let Some(j) = bits::next_bit(mark_word(marks, k), from.saturating_sub(k * 64)) {
            return Some(k * 64 + j);
        }
    }
    None
}

// The marked places, ascending.
pub fn places(marks: &[u64]) -> Places<'_>
    ensures from { result.from ≡ 0 }
    ensures marks { result.marks.now ≡ marks.now }
{
    Places { marks, from: 0 }
}

// How many places are marked.
pub fn count_marked(marks: &[u64]) -> u32
    ensures { result ≡ mark_count marks.now }
{
    (0..16).map(|j| bits::count_bits(mark_word(marks, j))).sum()
}

// The MARKS test: 16 words, and no bit set at or above the record count.
pub fn marks_fit(marks: &[u64], count: usize) -> bool
    ensures { result ≡ marks_fit marks.now count }
{
    marks.len() == 16 && next_marked(marks, count).is_none()
}
