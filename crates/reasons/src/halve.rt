// The printed set by halving: between two kept records the next one is found by halving what may go.
ghost use Rattle.std.specs.Prelude.{◌≡◌, ◌↔◌, true, false, ℕ, ◌+◌, ◌-◌, ◌<◌, ◌≤◌, length, IsTrue, IfSome, IfNone, unwrap_or};
ghost use Rattle.bits.specs.Sets.{lowest, found_below};
ghost use Rattle.marks.specs.Marks.{marked, marks_of, cut_out};
ghost use Rattle.pack.specs.Question.{counted};
ghost use Rattle.pack.specs.Record.{lines_of};
ghost use Rattle.pack.specs.World.{Follows};
ghost use Rattle.reasons.specs.Printed.{IsPicked};
ghost use Rattle.reasons.specs.Inner.{Next};

use engine::verdict::goal_follows;
use marks::change::cut_marks;
use marks::look::next_marked;
use pack::taken::Taken;

// Places from `from` on and below `to`.
#[derive(Clone, Copy, Debug, PartialEq, Eq)]
pub struct Range {
    pub from: usize,
    pub to: usize,
}

// A question that is taken, with some marks less.
pub(crate) fn with_marks<'a, 'b: 'a>(q: &Taken<'b>, marks: &'a [u64; 16]) -> Taken<'a>
    requires { (length marks.now ≡ 16) × ((i : ℕ) → marked marks.now i ≡ true → marked q.now.marks.now i ≡ true) }
    ensures sizes { (result.n ≡ q.now.n) × (result.m ≡ q.now.m) }
    ensures words { (result.pack.now ≡ q.now.pack.now) × (result.marks.now ≡ marks.now) }
    ensures goal { (result.a ≡ q.now.a) × (result.b ≡ q.now.b) }
{
    Taken {
        n: q.n,
        m: q.m,
        pack: q.pack,
        marks,
        a: q.a,
        b: q.b,
    }
}

// Does the goal follow from the marked places but those of a range?
fn goes_without(q: &Taken, range: Range) -> bool
    ensures { IsTrue result ↔ Follows (lines_of q.now.pack.now) (cut_out (counted q.now.pack.now q.now.marks.now) range.from range.to) q.now.a q.now.b }
{
    let trial = cut_marks(q.marks, range.from, range.to);
    goal_follows(&with_marks(q, &trial))
}

// The next marked place past `at` and below `end`.
fn next_past(marks: &[u64], at: usize, end: usize) -> Option<usize>
    requires { (at < end) × (end ≤ 1024) }
    ensures { result ≡ found_below end (lowest (marked marks.now) (at + 1) (end - (at + 1))) }
{
    let k = next_marked(marks, at + 1)?;
    if k < end {
        return Some(k);
    }
    None
}

// Of the marked places inside a range the one halfway up: it goes on by one while another goes on by two.
fn halfway(marks: &[u64], range: &Range) -> Option<usize>
    requires { (range.now.from < range.now.to) × (range.now.to ≤ 1024) }
    ensures some { IfSome result (λ k. (range.now.from < k) × (k < range.now.to)) }
    ensures none { IfNone result ((j : ℕ) → range.now.from < j → j < range.now.to → marked marks.now j ≡ false) }
{
    let end = range.to;
    let mut half = next_past(marks, range.from, end)?;
    let mut whole = half;
    while let Some(next) = next_past(marks, whole, end) {
        whole = match next_past(marks, next, end) {
            Some(next) => next,
            None => return Some(half),
        };
        half = next_past(marks, half, end)?;
    }
    Some(half)
}

// Of the marked places from i on, the first that cannot go together with those before it, unless all can go.
fn next_kept(q: &Taken, i: usize) -> Option<usize>
    requires { (i < 1024) × Follows (lines_of q.now.pack.now) (counted q.now.pack.now q.now.marks.now) q.now.a q.now.b }
    ensures { Next (λ P. Follows (lines_of q.now.pack.now) P q.now.a q.now.b) (counted q.now.pack.now q.now.marks.now) i (unwrap_or result 1024) }
{
    let mut range = Range { from: i, to: 1024 };
    if goes_without(q, range) {
        return None;
    }
    while let Some(middle) = halfway(q.marks, &range) {
        let lower = Range {
            from: i,
            to: middle,
        };
        if goes_without(q, lower) {
            range.from = middle;
        } else {
            range.to = middle;
        }
    }
    Some(range.from)
}

// Of the marks of a question whose goal follows, those of the picked set.
pub fn pick(q: &Taken) -> [u64; 16]
    requires { Follows (lines_of q.now.pack.now) (counted q.now.pack.now q.now.marks.now) q.now.a q.now.b }
    ensures words { (result ≡ marks_of (marked result)) × ((i : ℕ) → marked result i ≡ true → marked q.now.marks.now i ≡ true) }
    ensures picked { IsPicked (length (lines_of q.now.pack.now)) (λ P. Follows (lines_of q.now.pack.now) P q.now.a q.now.b) (counted q.now.pack.now q.now.marks.now) (counted q.now.pack.now result) }
{
    let mut rest = cut_marks(q.marks, 0, 0);
    let mut from = 0;
    while let Some(i) = next_marked(&rest, from) {
        match next_kept(&with_marks(q, &rest), i) {
            Some(k) => {
                rest = cut_marks(&rest, i, k);
                from = k + 1;
            }
            None => return cut_marks(&rest, i, 1024),
        }
    }
    rest
}
