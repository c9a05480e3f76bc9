// The text of a question, by its verdict.
ghost use Rattle.engine.specs.Verdict.{verdict_error_told, GivesVerdict};
ghost use Rattle.lines.specs.Prints.{PrintsAsked, WritesThe};

use crate::parts::{module_marks, set_marks, sheet_parts};
use engine::answer::{Verdict, VerdictError};
use engine::verdict::verdict;
use pack::check::Refusal;
use pack::question::Question;
use pack::told::Told;
use text::outcome::{write_follows, write_not, write_refused, write_refused_at};

// A refusal: of RECORD by its place, any other by its number.
fn refusal_text(out: &mut [u8; 8192], q: &Question, why: VerdictError) -> usize
    requires { GivesVerdict q.now.n q.now.m q.now.pack.now q.now.marks.now q.now.a q.now.b (verdict_error_told why).0 (verdict_error_told why).1 }
    ensures { WritesThe (PrintsAsked q.now.n q.now.m q.now.pack.now q.now.marks.now q.now.a q.now.b) out.old out.new result }
{
    match why {
        VerdictError::Refused(Refusal::Record(place)) => write_refused_at(out, place),
        _ => write_refused(out, why.number()),
    }
}

// The text of a question, whatever its marks: FOLLOWS with the steps, the module and the set, NOT with the rows and the module.
pub fn question_text(out: &mut [u8; 8192], q: &Question) -> usize
    ensures { WritesThe (PrintsAsked q.now.n q.now.m q.now.pack.now q.now.marks.now q.now.a q.now.b) out.old out.new result }
{
    match verdict(q) {
        Ok(Verdict::Follows) => {
            let module = module_marks(q);
            let set = set_marks(q);
            write_follows(out, sheet_parts(q), &module, &set)
        }
        Ok(Verdict::Not) => write_not(out, sheet_parts(q), &module_marks(q)),
        Err(why) => refusal_text(out, q, why),
    }
}
