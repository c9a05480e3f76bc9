// The writer of our sheets: numbers 1 to 6 and 8 of document 01's table, else FOLLOWS with the steps or NOT with the rows.
ghost use Rattle.std.specs.Prelude.{◌≡◌, true, false, List, ◌++◌, ℕ, ◌+◌, ◌*◌, ◌^◌, ◌≤◌, ◌<◌, leb, length, drop, slice_index};
ghost use Rattle.pack.specs.Question.{counted};
ghost use Rattle.pack.specs.Record.{lines_of};
ghost use Rattle.passes.specs.Ours.{our_steps};
ghost use Rattle.engine.specs.Computed.{goal_held};
ghost use Rattle.writer.specs.Sheet.{sheet_told, GivesSheet};
ghost use Rattle.writer.specs.Computed.{sheet_answer, sheet_out, ask_sheet, written_sheet};
ghost use Rattle.writer.specs.Inner.{row_in, rows_bytes, filled};

use crate::answer::{Sheet, SheetError};
use engine::over::Goal;
use engine::verdict::settle;
use pack::bytes::write_word;
use pack::question::Question;
use pack::taken::Taken;
use tables::Tables;

// Rows into the sheet, each into its part, from part `from` on.
fn write_rows(from: usize, rows: &[u64], sheet: &mut [u8])
    requires { (from + length rows.now) * 8 ≤ length sheet.old }
    ensures rows { (f : ℕ → ℕ) (blank : List ℕ) → length blank ≡ length sheet.old → sheet.old ≡ filled f blank from → ((i : ℕ) → i < length rows.now → slice_index rows.now i ≡ f (from + i)) → sheet.new ≡ filled f blank (from + length rows.now) }
    ensures words { (i : ℕ) → i < length rows.now → slice_index rows.now i < 2 ^ 64 }
{
    for (i, row) in rows.iter().enumerate() {
        let at = (from + i) * 8;
        let end = at + 8;
        write_word(&mut sheet[at..end], *row);
    }
}

// The rows of our no sheet: n rows of concepts, then n rows of links for each role.
fn write_tables(q: &Taken, tables: &Tables, sheet: &mut [u8])
    requires { q.now.n * (1 + q.now.m) * 8 ≤ length sheet.old }
    ensures { (sheet.new ≡ rows_bytes q.now.n (q.now.n * (1 + q.now.m)) tables.now.concepts tables.now.links ++ drop (q.now.n * (1 + q.now.m) * 8) sheet.old) × ((i : ℕ) → i < q.now.n * (1 + q.now.m) → row_in q.now.n tables.now.concepts tables.now.links i < 2 ^ 64) }
{
    let concepts: &[u64] = &tables.concepts;
    write_rows(0, &concepts[..q.n], sheet);
    let links: &[u64] = &tables.links;
    for r in 0..q.m {
        let first = r * 64;
        let end = first + q.n;
        write_rows(q.n * (1 + r), &links[first..end], sheet);
    }
}

// Our no sheet from the rows of the finished passes, where the sheet has room for it.
fn write_no(q: &Taken, tables: &Tables, sheet: &mut [u8]) -> Result<Sheet, SheetError>
    ensures answer { result ≡ sheet_answer false (q.now.n * (1 + q.now.m)) (leb (q.now.n * (1 + q.now.m) * 8) (length sheet.old)) }
    ensures sheet { sheet.new ≡ sheet_out result (rows_bytes q.now.n (q.now.n * (1 + q.now.m)) tables.now.concepts tables.now.links) sheet.old }
    ensures words { q.now.n * (1 + q.now.m) * 8 ≤ length sheet.old → (i : ℕ) → i < q.now.n * (1 + q.now.m) → row_in q.now.n tables.now.concepts tables.now.links i < 2 ^ 64 }
{
    let rows = q.n * (1 + q.m);
    let need = rows * 8;
    if sheet.len() < need {
        return Err(SheetError::NoRoom(need as u32));
    }
    write_tables(q, tables, sheet);
    Ok(Sheet::Not(rows as u32))
}

// Our yes sheet of so many steps: the same passes again, this time with the sheet.
fn write_yes(q: &Taken, steps: usize, sheet: &mut [u8]) -> Result<Sheet, SheetError>
    requires { (q.now.a ≡ q.now.b → ⊥) × (goal_held q.now.n q.now.m q.now.pack.now q.now.marks.now q.now.a q.now.b ≡ true) × (steps ≡ length (our_steps (lines_of q.now.pack.now) (counted q.now.pack.now q.now.marks.now) q.now.n q.now.m q.now.a q.now.b)) × (steps ≤ 36800) }
    ensures { (result ≡ ask_sheet q.now.n q.now.m q.now.pack.now q.now.marks.now q.now.a q.now.b sheet.old) × (sheet.new ≡ written_sheet q.now.n q.now.m q.now.pack.now q.now.marks.now q.now.a q.now.b sheet.old) }
{
    let need = steps * 8;
    if sheet.len() < need {
        return Err(SheetError::NoRoom(need as u32));
    }
    let written = settle(q, &mut sheet[..need]).count;
    Ok(Sheet::Follows(written as u32))
}

// The sheet of a question that is taken and whose concepts differ. TOO LONG is never the answer: no question adds so many facts.
fn write_settled(q: &Taken, sheet: &mut [u8]) -> Result<Sheet, SheetError>
    requires { q.now.a ≡ q.now.b → ⊥ }
    ensures { (result ≡ ask_sheet q.now.n q.now.m q.now.pack.now q.now.marks.now q.now.a q.now.b sheet.old) × (sheet.new ≡ written_sheet q.now.n q.now.m q.now.pack.now q.now.marks.now q.now.a q.now.b sheet.old) }
{
    let end = settle(q, &mut []);
    let goal = Goal::of(q);
    if end.tables.holds_in(goal.a, goal.b) {
        return write_yes(q, end.count, sheet);
    }
    write_no(q, &end.tables, sheet)
}

// The sheet of a question that is taken: nothing is to be shown where its concepts are the same, and no room for tables is cleared.
fn write_taken(q: &Taken, sheet: &mut [u8]) -> Result<Sheet, SheetError>
    ensures { (result ≡ ask_sheet q.now.n q.now.m q.now.pack.now q.now.marks.now q.now.a q.now.b sheet.old) × (sheet.new ≡ written_sheet q.now.n q.now.m q.now.pack.now q.now.marks.now q.now.a q.now.b sheet.old) }
{
    if q.a == q.b {
        return Ok(Sheet::Follows(0));
    }
    write_settled(q, sheet)
}

// The sheet writer, for any input and any lent sheet.
pub fn write_sheet(q: &Question, sheet: &mut [u8]) -> Result<Sheet, SheetError>
    ensures { GivesSheet q.now.n q.now.m q.now.pack.now q.now.marks.now q.now.a q.now.b sheet.old sheet.new (sheet_told result).0 (sheet_told result).1 }
{
    let taken = q.take()?;
    write_taken(&taken, sheet)
}
