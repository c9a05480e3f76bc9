// What C links of the two sheet checks: each export calls the function of its name in `sheets`, and promises what that one does.
#![tactic(auto)]

ghost use Rattle.std.specs.Prelude.{◌/◌, ◌%◌};
ghost use Rattle.pack.specs.Bytes.{marks_in};
ghost use Rattle.yes.specs.Answers.{GivesYes};
ghost use Rattle.no.specs.Answers.{GivesNo};

use sheets::calls;

// The yes check for C.
#[unsafe(no_mangle)]
pub extern "C" fn noolukask_check_yes<'a>(
    n: u64,
    m: u64,
    pack: &'a [u8],
    marks: &'a [u8],
    a: u64,
    b: u64,
    sheet: &'a [u8],
) -> u64
    ensures { GivesYes n m pack.now (marks_in marks.now) a b sheet.now (result % 16) (result / 16) }
{
    calls::noolukask_check_yes(n, m, pack, marks, a, b, sheet)
}

// The no check for C.
#[unsafe(no_mangle)]
pub extern "C" fn noolukask_check_no<'a>(
    n: u64,
    m: u64,
    pack: &'a [u8],
    marks: &'a [u8],
    a: u64,
    b: u64,
    sheet: &'a [u8],
) -> u64
    ensures { GivesNo n m pack.now (marks_in marks.now) a b sheet.now (result % 16) (result / 16) }
{
    calls::noolukask_check_no(n, m, pack, marks, a, b, sheet)
}
