// Standard input: a pack, then one question record of 8 bytes.
ghost use Rattle.std.specs.Prelude.{◌≡◌};
ghost use Rattle.lines.specs.Input.{input_error_told, input_of};

use pack::told::Told;

// The longest input that is answered: 1,024 records and the question record.
const LONGEST: usize = 8200;

// What the input asks: sizes and a goal of the pack that ends at `at`.
#[derive(Clone, Copy, Debug, PartialEq, Eq)]
pub struct Asked {
    pub n: u8,
    pub m: u8,
    pub a: u8,
    pub b: u8,
    pub at: usize,
}

// Why an input asks nothing: 1 and 2 of document 01's table.
#[derive(Clone, Copy, Debug, PartialEq, Eq)]
pub enum InputError {
    Shape,
    TooLong,
}

impl Told for InputError {
    ghost told = { input_error_told };

    fn number(&self) -> u32 {
        match self {
            InputError::Shape => 1,
            InputError::TooLong => 2,
        }
    }

    fn value(&self) -> u64 {
        0
    }
}

// The question of an input of any length and content. Its record is 0, n, m, A, B, three zeros.
#[tactic(auto, using(crate::proofs::InputLaws::no_question))]
pub fn read_input(s: &[u8]) -> Result<Asked, InputError>
    ensures { result ≡ input_of s.now }
{
    let too_long = LONGEST < s.len();
    if too_long {
        return Err(InputError::TooLong);
    }
    let [pack @ .., 0, n, m, a, b, 0, 0, 0] = s else {
        return Err(InputError::Shape);
    };
    Ok(Asked {
        n: *n,
        m: *m,
        a: *a,
        b: *b,
        at: pack.len(),
    })
}
