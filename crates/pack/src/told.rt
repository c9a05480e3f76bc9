// What an answer tells: the number of document 01's table, 0 where nothing is refused, and the value that comes with it.
ghost use Rattle.std.specs.Prelude.{◌≡◌, ℕ, ◌+◌, ◌*◌, ◌<◌, ◌≤◌, ◌^◌};
ghost use Rattle.pack.specs.Answers.{answer_told, count_told, nothing_told};

pub trait Told {
    ghost told: { Self → ℕ × ℕ };

    fn number(&self) -> u32
        ensures { result ≡ (told self.now).0 };

    fn value(&self) -> u64
        ensures is { result ≡ (told self.now).1 }
        ensures small { result < 2 ^ 40 };
}

// A count comes back where nothing is refused,
impl Told for u32 {
    ghost told = { count_told };

    fn number(&self) -> u32 {
        0
    }

    fn value(&self) -> u64 {
        *self as u64
    }
}

// or nothing does.
impl Told for () {
    ghost told = { nothing_told };

    fn number(&self) -> u32 {
        0
    }

    fn value(&self) -> u64 {
        0
    }
}

impl<A: Told, E: Told> Told for Result<A, E> {
    ghost told = { answer_told A.told E.told };

    fn number(&self) -> u32 {
        match self {
            Ok(answer) => answer.number(),
            Err(why) => why.number(),
        }
    }

    fn value(&self) -> u64 {
        match self {
            Ok(answer) => answer.value(),
            Err(why) => why.value(),
        }
    }
}

// The number and the value in one, for C: the value stands above the number, which is below the base.
pub fn coded<const BASE: u64, A: Told>(answer: &A) -> u64
    requires { BASE ≤ 256 }
    ensures { result ≡ (A.told answer.now).0 + BASE * (A.told answer.now).1 }
{
    answer.number() as u64 + BASE * answer.value()
}
