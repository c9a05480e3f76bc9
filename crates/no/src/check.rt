// The no check: numbers 1 to 5, 9, 11, 12 and 13 of document 01's table, else the sheet is accepted.
ghost use Rattle.std.specs.Prelude.{◌≡◌, ◌≤◌, ◌<◌, false, true, length, MatchResult};
ghost use Rattle.pack.specs.Record.{lines_of};
ghost use Rattle.pack.specs.Question.{counted};
ghost use Rattle.no.specs.declared.check.NoError.TheVariants.{Refused, Length, Broken};
ghost use Rattle.no.specs.NoSheet.{world_of};
ghost use Rattle.no.specs.Computed.{things_by, no_length_by, lowest_broken, check_no};
ghost use Rattle.no.specs.Inner.{LinesFit};
ghost use Rattle.no.specs.Answers.{no_told, no_error_told, GivesNo};

use crate::row::lowest_forbidden;
use crate::world::World;
use marks::look::places;
use pack::check::Refusal;
use pack::line::line_at;
use pack::question::Question;
use pack::taken::Taken;
use pack::told::Told;

// Why a no sheet is not accepted, in the order of document 01's table.
#[derive(Clone, Copy, Debug, PartialEq, Eq)]
pub enum NoError {
    Refused(Refusal),
    Length,
    Row(u32),
    Broken(u32),
    NotShown,
}

impl From<Refusal> for NoError {
    ghost from_gives = { λ refusal e. e ≡ Refused refusal };

    fn from(refusal: Refusal) -> NoError {
        NoError::Refused(refusal)
    }
}

impl Told for NoError {
    ghost told = { no_error_told };

    fn number(&self) -> u32 {
        match self {
            NoError::Refused(why) => why.number(),
            NoError::Length => 9,
            NoError::Row(_) => 11,
            NoError::Broken(_) => 12,
            NoError::NotShown => 13,
        }
    }

    fn value(&self) -> u64 {
        match self {
            NoError::Refused(why) => why.value(),
            NoError::Row(row) => *row as u64,
            NoError::Broken(place) => *place as u64,
            _ => 0,
        }
    }
}

// The number of things that a sheet of m roles has by its length, 1 to 64.
fn count_things(m: usize, sheet: &[u8]) -> Result<usize, NoError>
    requires { m ≤ 8 }
    ensures { MatchResult result (λ k. (k ≡ things_by m sheet.now) × (no_length_by m sheet.now ≡ true)) (λ e. (e ≡ Length) × (no_length_by m sheet.now ≡ false)) }
{
    let thing = 8 * (1 + m);
    let things = sheet.len() / thing;
    if sheet.len() % thing != 0 || things < 1 || 64 < things {
        return Err(NoError::Length);
    }
    Ok(things)
}

// Does the world obey the line at each place that counts? If not, the lowest that it breaks.
fn check_lines(q: &Taken, world: &World) -> Result<(), NoError>
    requires { LinesFit world.now.things world.now.sheet.now (lines_of q.now.pack.now) }
    ensures { let ls = lines_of q.now.pack.now in let place = lowest_broken (world_of world.now.things world.now.sheet.now) ls (counted q.now.pack.now q.now.marks.now) in MatchResult result (λ _. place ≡ length ls) (λ e. (e ≡ Broken place) × (place < length ls)) }
{
    for place in places(q.marks) {
        if !world.obeys(line_at(q.pack, place)) {
            return Err(NoError::Broken(place as u32));
        }
    }
    Ok(())
}

// The no check, for a question that is taken.
fn check_taken(q: &Taken, sheet: &[u8]) -> Result<(), NoError>
    ensures { result ≡ check_no q.now.n q.now.m q.now.pack.now q.now.marks.now q.now.a q.now.b sheet.now }
{
    let things = count_things(q.m, sheet)?;
    if let Some(row) = lowest_forbidden(sheet, q.n, things) {
        return Err(NoError::Row(row as u32));
    }
    let world = World { things, sheet };
    check_lines(q, &world)?;
    if world.refutes(q.a as u8, q.b as u8) {
        return Ok(());
    }
    Err(NoError::NotShown)
}

// The no check, for any question and any bytes.
pub fn check_no(q: &Question, sheet: &[u8]) -> Result<(), NoError>
    ensures { GivesNo q.now.n q.now.m q.now.pack.now q.now.marks.now q.now.a q.now.b sheet.now (no_told result).0 (no_told result).1 }
{
    let taken = q.take()?;
    check_taken(&taken, sheet)
}
