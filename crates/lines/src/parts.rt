// What the lines of an answer tell: the steps or rows of our sheet, the module and the printed set; and the marks of everything.
ghost use Rattle.std.specs.Prelude.{◌≡◌};
ghost use Rattle.marks.specs.Marks.{mark_count};
ghost use Rattle.pack.specs.Question.{counted, Taken};
ghost use Rattle.pack.specs.Record.{lines_of};
ghost use Rattle.pack.specs.World.{Follows};
ghost use Rattle.reasons.specs.Module.{MarksModule};
ghost use Rattle.reasons.specs.Set.{MarksSet};
ghost use Rattle.lines.specs.Prints.{TellsSteps, TellsRows, all_marks};

use marks::change::cut_marks;
use pack::question::Question;
use reasons::module::module_for;
use reasons::set::printed_set;
use writer::answer::{Sheet, SheetError};
use writer::write::write_sheet;

// Everything is marked: of all places, those of the pack's records.
pub fn mark_all(pack: &[u8]) -> [u64; 16]
    ensures { result ≡ all_marks pack.now }
{
    cut_marks(&[u64::MAX; 16], pack.len() / 8, 1024)
}

// The steps or rows of our sheet, where the question is taken: what the writer says that a sheet of no bytes would need.
pub fn sheet_parts(q: &Question) -> u32
    requires { Taken q.now.n q.now.m q.now.pack.now q.now.marks.now q.now.a q.now.b }
    ensures { (Follows (lines_of q.now.pack.now) (counted q.now.pack.now q.now.marks.now) q.now.a q.now.b → TellsSteps q.now.n q.now.m q.now.pack.now q.now.marks.now q.now.a q.now.b result) × ((Follows (lines_of q.now.pack.now) (counted q.now.pack.now q.now.marks.now) q.now.a q.now.b → ⊥) → TellsRows q.now.n q.now.m q.now.pack.now q.now.marks.now result) }
{
    match write_sheet(q, &mut []) {
        Ok(Sheet::Follows(steps)) => steps,
        Ok(Sheet::Not(rows)) => rows,
        Err(SheetError::NoRoom(bytes)) => bytes / 8,
        Err(_) => 0,
    }
}

// The marks of the module for a, where a question about it is taken.
pub fn module_marks(q: &Question) -> [u64; 16]
    requires { Taken q.now.n q.now.m q.now.pack.now q.now.marks.now q.now.a q.now.a }
    ensures { MarksModule q.now.pack.now q.now.marks.now q.now.a (mark_count result) result }
{
    let mut out = [0u64; 16];
    let _ = module_for(q, &mut out);
    out
}

// The marks of the printed set, where the question is taken and the goal follows.
pub fn set_marks(q: &Question) -> [u64; 16]
    requires taken { Taken q.now.n q.now.m q.now.pack.now q.now.marks.now q.now.a q.now.b }
    requires follows { Follows (lines_of q.now.pack.now) (counted q.now.pack.now q.now.marks.now) q.now.a q.now.b }
    ensures { MarksSet q.now.pack.now q.now.marks.now q.now.a q.now.b (mark_count result) result }
{
    let mut out = [0u64; 16];
    let _ = printed_set(q, &mut out);
    out
}
