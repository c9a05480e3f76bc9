// The module for a concept: the records that count and whose left-side names are all reached from it.
ghost use Rattle.std.specs.Prelude.{◌≡◌};
ghost use Rattle.reasons.specs.Computed.{module_marks};
ghost use Rattle.reasons.specs.Module.{GivesModule};
ghost use Rattle.pack.specs.Answers.{checked_told};

use crate::out::{give, take_reason};
use crate::reach::reached_records;
use pack::check::Refusal;
use pack::question::Question;
use pack::taken::Taken;

// The marks of the module for goal concept a.
pub fn module_of(q: &Taken) -> [u64; 16]
    ensures { result ≡ module_marks q.now.n q.now.m q.now.pack.now q.now.marks.now q.now.a }
{
    reached_records(q.pack, q.marks, q.a as u8)
}

// The module for goal concept a, for any input and any lent out marks. Of the goal a alone counts.
pub fn module_for(q: &Question, out: &mut [u64]) -> Result<u32, Refusal>
    ensures { GivesModule q.now.n q.now.m q.now.pack.now q.now.marks.now q.now.a out.old out.new (checked_told result).0 (checked_told result).1 }
{
    let of_a = Question { b: q.a, ..*q };
    let taken = take_reason(&of_a, out.len())?;
    Ok(give(&module_of(&taken), out))
}
