// The printed set: numbers 1 to 7 of document 01's table, else the set in the out marks and the number of its records.
ghost use Rattle.std.specs.Prelude.{◌≡◌, length};
ghost use Rattle.pack.specs.Question.{counted};
ghost use Rattle.pack.specs.Record.{lines_of};
ghost use Rattle.pack.specs.World.{Follows};
ghost use Rattle.reasons.specs.Computed.{set_marks};
ghost use Rattle.reasons.specs.Set.{set_error_told, set_told, GivesSet};
ghost use Rattle.reasons.specs.Inner.{SetTaken};

use crate::halve::{pick, with_marks};
use crate::module::module_of;
use crate::out::{give, take_reason};
use engine::verdict::goal_follows;
use pack::check::Refusal;
use pack::question::Question;
use pack::taken::Taken;
use pack::told::Told;

// Why the printed set's call gives no set.
#[derive(Clone, Copy, Debug, PartialEq, Eq)]
pub enum SetError {
    Refused(Refusal),
    TooLong,
    NotFollows,
}

impl From<Refusal> for SetError {
    ghost use Rattle.reasons.specs.declared.set.SetError.TheVariants.{Refused};

    ghost from_gives = { λ why e. e ≡ Refused why };

    fn from(why: Refusal) -> SetError {
        SetError::Refused(why)
    }
}

impl Told for SetError {
    ghost told = { set_error_told };

    fn number(&self) -> u32 {
        match self {
            SetError::Refused(why) => why.number(),
            SetError::TooLong => 6,
            SetError::NotFollows => 7,
        }
    }

    fn value(&self) -> u64 {
        match self {
            SetError::Refused(why) => why.value(),
            SetError::TooLong | SetError::NotFollows => 0,
        }
    }
}

// The marks of the printed set of a goal that follows: picked from its module. For A equal to B no record is needed, and none is
// looked at.
fn set_of(q: &Taken) -> [u64; 16]
    requires { Follows (lines_of q.now.pack.now) (counted q.now.pack.now q.now.marks.now) q.now.a q.now.b }
    ensures { result ≡ set_marks q.now.n q.now.m q.now.pack.now q.now.marks.now q.now.a q.now.b }
{
    if q.a == q.b {
        return [0; 16];
    }
    let inside = module_of(q);
    pick(&with_marks(q, &inside))
}

// The set where the goal follows; else 7 and the out marks as they were. 6 is never: the passes add 36,800 facts at most.
fn set_taken(q: &Taken, out: &mut [u64]) -> Result<u32, SetError>
    requires { length out.old ≡ 16 }
    ensures { SetTaken q.now.n q.now.m q.now.pack.now q.now.marks.now q.now.a q.now.b out.old out.new result }
{
    if !goal_follows(q) {
        return Err(SetError::NotFollows);
    }
    Ok(give(&set_of(q), out))
}

// The printed set, for any input and any lent out marks.
pub fn printed_set(q: &Question, out: &mut [u64]) -> Result<u32, SetError>
    ensures { GivesSet q.now.n q.now.m q.now.pack.now q.now.marks.now q.now.a q.now.b out.old out.new (set_told result).0 (set_told result).1 }
{
    let taken = take_reason(q, out.len())?;
    set_taken(&taken, out)
}
