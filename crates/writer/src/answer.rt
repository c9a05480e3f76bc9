// What the sheet writer answers, and what that tells: a number of document 01's table, and the value that comes with it.
ghost use Rattle.writer.specs.Sheet.{sheet_value_told, sheet_error_told};

use pack::check::Refusal;
use pack::told::Told;

// Which of our sheets is written, with its steps or its rows.
#[derive(Clone, Copy, Debug, PartialEq, Eq)]
pub enum Sheet {
    Follows(u32),
    Not(u32),
}

// Why none is, NO ROOM with the bytes that ours needs.
#[derive(Clone, Copy, Debug, PartialEq, Eq)]
pub enum SheetError {
    Refused(Refusal),
    TooLong,
    NoRoom(u32),
}

impl From<Refusal> for SheetError {
    ghost use Rattle.std.specs.Prelude.{◌≡◌};
    ghost use Rattle.writer.specs.declared.answer.SheetError.TheVariants.{Refused};

    ghost from_gives = { λ why e. e ≡ Refused why };

    fn from(why: Refusal) -> SheetError {
        SheetError::Refused(why)
    }
}

impl Told for Sheet {
    ghost told = { sheet_value_told };

    fn number(&self) -> u32 {
        0
    }

    fn value(&self) -> u64 {
        match self {
            Sheet::Follows(steps) => 2 * *steps as u64 + 1,
            Sheet::Not(rows) => 2 * *rows as u64,
        }
    }
}

impl Told for SheetError {
    ghost told = { sheet_error_told };

    fn number(&self) -> u32 {
        match self {
            SheetError::Refused(why) => why.number(),
            SheetError::TooLong => 6,
            SheetError::NoRoom(_) => 8,
        }
    }

    fn value(&self) -> u64 {
        match self {
            SheetError::Refused(why) => why.value(),
            SheetError::TooLong => 0,
            SheetError::NoRoom(need) => *need as u64,
        }
    }
}
