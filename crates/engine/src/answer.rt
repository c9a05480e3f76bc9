// What the verdict call answers, and what that tells: a number of document 01's table, and the value that comes with it.
ghost use Rattle.engine.specs.Verdict.{verdict_value_told, verdict_error_told};

use pack::check::Refusal;
use pack::told::Told;

// Does the goal follow?
#[derive(Clone, Copy, Debug, PartialEq, Eq)]
pub enum Verdict {
    Follows,
    Not,
}

// Why the verdict call gives no verdict.
#[derive(Clone, Copy, Debug, PartialEq, Eq)]
pub enum VerdictError {
    Refused(Refusal),
    TooLong,
}

impl From<Refusal> for VerdictError {
    ghost use Rattle.std.specs.Prelude.{◌≡◌};
    ghost use Rattle.engine.specs.declared.answer.VerdictError.TheVariants.{Refused};

    ghost from_gives = { λ why e. e ≡ Refused why };

    fn from(why: Refusal) -> VerdictError {
        VerdictError::Refused(why)
    }
}

impl Told for Verdict {
    ghost told = { verdict_value_told };

    fn number(&self) -> u32 {
        0
    }

    fn value(&self) -> u64 {
        match self {
            Verdict::Follows => 1,
            Verdict::Not => 0,
        }
    }
}

impl Told for VerdictError {
    ghost told = { verdict_error_told };

    fn number(&self) -> u32 {
        match self {
            VerdictError::Refused(why) => why.number(),
            VerdictError::TooLong => 6,
        }
    }

    fn value(&self) -> u64 {
        match self {
            VerdictError::Refused(why) => why.value(),
            VerdictError::TooLong => 0,
        }
    }
}
