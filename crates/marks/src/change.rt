// Marks changed, a word at a time: without a range of places; and copied.
ghost use Rattle.std.specs.Prelude.{◌≡◌, not, ◌&&◌, ℕ, ◌+◌, ◌<◌, leb, ltb, length};
ghost use Rattle.bits.specs.Bit.{has};
ghost use Rattle.marks.specs.Marks.{marked, marks_of, cut_out};

use crate::look::mark_word;

// Of 64 places from `at` on, those below i.
fn below(at: usize, i: usize) -> u64
    ensures { (j : ℕ) → j < 64 → has result j ≡ ltb (at + j) i }
{
    let past = i.saturating_sub(at);
    if past < 64 { (1 << past) - 1 } else { u64::MAX }
}

// The marked ones of 64 places from `at` on, but for those from i on and below k.
fn cut_word(w: u64, at: usize, i: usize, k: usize) -> u64
    ensures { (j : ℕ) → j < 64 → has result j ≡ (has w j && not (leb i (at + j) && ltb (at + j) k)) }
{
    let cut = bits::lacking(below(at, k), below(at, i));
    bits::lacking(w, cut)
}

// The marks but for the places from i on and below k.
pub fn cut_marks(marks: &[u64], i: usize, k: usize) -> [u64; 16]
    ensures { result ≡ marks_of (cut_out (marked marks.now) i k) }
{
    let mut words = [0u64; 16];
    for j in 0..16 {
        words[j] = cut_word(mark_word(marks, j), j * 64, i, k);
    }
    words
}

// The 16 words of marks into lent ones.
pub fn put_marks(words: &[u64; 16], out: &mut [u64])
    requires { (length words.now ≡ 16) × (length out.old ≡ 16) }
    ensures { out.new ≡ words.now }
{
    out.copy_from_slice(words);
}
