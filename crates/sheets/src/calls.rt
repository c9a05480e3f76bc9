// The two checks as C calls them: numbers and byte slices, the marks as 128 bytes. What comes back is a number of document 01's
// table plus 16 times the place, step or row. What C links is in sheets_c.
ghost use Rattle.std.specs.Prelude.{◌≡◌, ◌/◌, ◌%◌};
ghost use Rattle.pack.specs.Bytes.{marks_in};
ghost use Rattle.pack.specs.Answers.{nothing_told, answer_told};
ghost use Rattle.yes.specs.Answers.{GivesYes};
ghost use Rattle.no.specs.Answers.{GivesNo};
ghost use Rattle.sheets.specs.Answers.{code, AskedByC};

use no::check::check_no;
use pack::question::Question;
use pack::told::{Told, coded};
use yes::check::check_yes;

// What a check answers for the question that C asks, and for the sheet.
fn checked<E: Told + Drop, F: Fn(&Question, &[u8]) -> Result<(), E> + Drop>(
    check: F,
    n: u64,
    m: u64,
    pack: &[u8],
    marks: &[u8],
    a: u64,
    b: u64,
    sheet: &[u8],
) -> u64
    requires { F.IsAlwaysCallable check }
    ensures { (q : _) × (s : _) × (answer : _) × F.post check q s answer × AskedByC n m pack.now marks.now a b q.now × (s.now ≡ sheet.now)
        × (result ≡ code (answer_told nothing_told E.told answer).0 (answer_told nothing_told E.told answer).1) }
{
    let mut words = [0; 16];
    let q = Question::from_c(n, m, pack, marks, &mut words, a, b);
    coded::<16, _>(&check(&q, sheet))
}

// The yes check for C.
pub fn noolukask_check_yes<'a>(
    n: u64,
    m: u64,
    pack: &'a [u8],
    marks: &'a [u8],
    a: u64,
    b: u64,
    sheet: &'a [u8],
) -> u64
    ensures { GivesYes n m pack.now (marks_in marks.now) a b sheet.now (result % 16) (result / 16) }
{
    checked(check_yes, n, m, pack, marks, a, b, sheet)
}

// The no check for C.
pub fn noolukask_check_no<'a>(
    n: u64,
    m: u64,
    pack: &'a [u8],
    marks: &'a [u8],
    a: u64,
    b: u64,
    sheet: &'a [u8],
) -> u64
    ensures { GivesNo n m pack.now (marks_in marks.now) a b sheet.now (result % 16) (result / 16) }
{
    checked(check_no, n, m, pack, marks, a, b, sheet)
}
