// The question check: numbers 1 to 5 of document 01's table, else the record count.
ghost use Rattle.std.specs.Prelude.{◌≡◌, IfOk, IfErr, Err};
ghost use Rattle.marks.specs.Marks.{marks_fit};
ghost use Rattle.pack.specs.Bytes.{marks_in};
ghost use Rattle.pack.specs.Question.{goal_fits, GivesQuestion};
ghost use Rattle.pack.specs.Computed.{check_counted, check_question};
ghost use Rattle.pack.specs.Answers.{checked_told};

use crate::bytes::marks_from;
use crate::check::{Refusal, check_pack};
use crate::taken::Taken;
use marks::look::marks_fit;

// A question as it is asked, whatever its numbers, bytes and words: the sizes, the pack, the marks, and the goal, a under b.
#[derive(Clone, Copy)]
pub struct Question<'a> {
    pub n: usize,
    pub m: usize,
    pub pack: &'a [u8],
    pub marks: &'a [u64],
    pub a: usize,
    pub b: usize,
}

impl<'a> Question<'a> {
    // A question as C asks it: its marks come as bytes, and their words stand in an array that the caller lends.
    pub fn from_c(
        n: u64,
        m: u64,
        pack: &'a [u8],
        marks: &[u8],
        words: &'a mut [u64; 16],
        a: u64,
        b: u64,
    ) -> Question<'a>
        ensures sizes { (result.n ≡ n) × (result.m ≡ m) }
        ensures pack { result.pack.now ≡ pack.now }
        ensures marks { result.marks.now ≡ marks_in marks.now }
        ensures goal { (result.a ≡ a) × (result.b ≡ b) }
    {
        Question {
            n: n as usize,
            m: m as usize,
            pack,
            marks: marks_from(marks, words),
            a: a as usize,
            b: b as usize,
        }
    }

    // Are both goal concepts below n?
    pub fn goal_fits(&self) -> bool
        ensures { result ≡ goal_fits self.now.n self.now.a self.now.b }
    {
        let low_a = self.a < self.n;
        let low_b = self.b < self.n;
        low_a & low_b
    }

    // The question check.
    pub fn check(&self) -> Result<u32, Refusal>
        ensures { GivesQuestion self.now.n self.now.m self.now.pack.now self.now.marks.now self.now.a self.now.b (checked_told result).0 (checked_told result).1 }
    {
        let count = check_pack(self.n, self.m, self.pack)?;
        if !marks_fit(self.marks, count as usize) {
            return Err(Refusal::Marks);
        }
        if !self.goal_fits() {
            return Err(Refusal::Goal);
        }
        Ok(count)
    }

    // The same question, taken, where nothing is refused.
    pub fn take(&self) -> Result<Taken<'a>, Refusal>
        ensures same { IfOk result (λ t. (t.n ≡ self.now.n) × (t.m ≡ self.now.m)
            × (t.pack.now ≡ self.now.pack.now) × (t.marks.now ≡ self.now.marks.now)
            × (t.a ≡ self.now.a) × (t.b ≡ self.now.b)) }
        ensures refused { IfErr result (λ why. check_question self.now.n self.now.m self.now.pack.now self.now.marks.now self.now.a self.now.b ≡ Err why) }
    {
        let _count = self.check()?;
        Ok(Taken {
            n: self.n,
            m: self.m,
            pack: self.pack,
            marks: self.marks,
            a: self.a,
            b: self.b,
        })
    }
}

impl<'a> Taken<'a> {
    // The question that was taken, as it was asked.
    pub fn asked(&self) -> Question<'a>
        ensures { (result.n ≡ self.now.n) × (result.m ≡ self.now.m)
            × (result.pack.now ≡ self.now.pack.now) × (result.marks.now ≡ self.now.marks.now)
            × (result.a ≡ self.now.a) × (result.b ≡ self.now.b) }
    {
        let Taken {
            n,
            m,
            pack,
            marks,
            a,
            b,
        } = *self;
        Question {
            n,
            m,
            pack,
            marks,
            a,
            b,
        }
    }
}
