// The yes check: numbers 1 to 5, 9, 10 and 13 of document 01's table, else the sheet is accepted.
ghost use Rattle.std.specs.Prelude.{◌≡◌, ◌≤◌, length};
ghost use Rattle.pack.specs.Record.{lines_of};
ghost use Rattle.pack.specs.Question.{counted};
ghost use Rattle.yes.specs.declared.check.YesError.TheVariants.{Refused};
ghost use Rattle.yes.specs.Computed.{check_steps};
ghost use Rattle.yes.specs.Answers.{yes_told, yes_error_told, GivesYes};

use crate::step::check_step;
use pack::bytes::part_at;
use pack::check::Refusal;
use pack::question::Question;
use pack::taken::Taken;
use pack::told::Told;
use tables::Tables;

// Why a yes sheet is not accepted, in the order of document 01's table.
#[derive(Clone, Copy, Debug, PartialEq, Eq)]
pub enum YesError {
    Refused(Refusal),
    Length,
    Step(u32),
    NotShown,
}

impl From<Refusal> for YesError {
    ghost from_gives = { λ why e. e ≡ Refused why };

    fn from(why: Refusal) -> YesError {
        Self::Refused(why)
    }
}

impl Told for YesError {
    ghost told = { yes_error_told };

    fn number(&self) -> u32 {
        match self {
            YesError::Refused(why) => why.number(),
            YesError::Length => 9,
            YesError::Step(_) => 10,
            YesError::NotShown => 13,
        }
    }

    fn value(&self) -> u64 {
        match self {
            YesError::Refused(why) => why.value(),
            YesError::Step(step) => *step as u64,
            _ => 0,
        }
    }
}

// The steps of a sheet of right length.
fn check_steps(q: &Taken, sheet: &[u8]) -> Result<(), YesError>
    requires { length sheet.now ≤ 524288 }
    ensures { result ≡ check_steps (lines_of q.now.pack.now) (counted q.now.pack.now q.now.marks.now) q.now.n q.now.a q.now.b sheet.now }
{
    let asked = q.asked();
    let mut tables = Tables::start(q.n);
    let steps = sheet.len() / 8;
    for i in 0..steps {
        if !check_step(&asked, part_at(sheet, i), &mut tables) {
            return Err(YesError::Step(i as u32));
        }
    }
    if !tables.holds_in(q.a as u8, q.b as u8) {
        return Err(YesError::NotShown);
    }
    Ok(())
}

// The yes check, for any question and any bytes.
pub fn check_yes(q: &Question, sheet: &[u8]) -> Result<(), YesError>
    ensures { GivesYes q.now.n q.now.m q.now.pack.now q.now.marks.now q.now.a q.now.b sheet.now (yes_told result).0 (yes_told result).1 }
{
    let q = q.take()?;
    let length_fits = (sheet.len() % 8 == 0) & (sheet.len() <= 524288);
    if !length_fits {
        return Err(YesError::Length);
    }
    check_steps(&q, sheet)
}
