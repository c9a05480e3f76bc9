// What the two calls that are lent out marks have in common: the question check before them, and the words that come back.
ghost use Rattle.std.specs.Prelude.{◌≡◌, IfOk, IfErr, Err, length};
ghost use Rattle.marks.specs.Marks.{mark_count};
ghost use Rattle.reasons.specs.Computed.{check_reason};

use marks::change::put_marks;
use marks::look::count_marked;
use pack::check::Refusal;
use pack::question::Question;
use pack::taken::Taken;

// The question, taken, where so many words are lent for the out marks: unless they are 16, MARKS in its place.
pub fn take_reason<'a>(q: &Question<'a>, words: usize) -> Result<Taken<'a>, Refusal>
    ensures same { IfOk result (λ t. (t.n ≡ q.now.n) × (t.m ≡ q.now.m)
        × (t.pack.now ≡ q.now.pack.now) × (t.marks.now ≡ q.now.marks.now)
        × (t.a ≡ q.now.a) × (t.b ≡ q.now.b) × (words ≡ 16)) }
    ensures refused { IfErr result (λ why. check_reason q.now.n q.now.m q.now.pack.now q.now.marks.now q.now.a q.now.b words ≡ Err why) }
{
    if words == 16 {
        return q.take();
    }
    let unread = Question {
        marks: &q.marks[..0],
        ..*q
    };
    unread.take()
}

// The 16 words into the out marks, and how many records they mark.
pub(crate) fn give(words: &[u64; 16], out: &mut [u64]) -> u32
    requires { (length words.now ≡ 16) × (length out.old ≡ 16) }
    ensures { (result ≡ mark_count words.now) × (out.new ≡ words.now) }
{
    put_marks(words, out);
    count_marked(out)
}
