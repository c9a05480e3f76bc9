// The pack check, the question check, the verdict and the sheet writer for C: each is the Rattle call of its name, the marks as 128 bytes.
ghost use Rattle.std.specs.Prelude.{◌/◌, ◌%◌};
ghost use Rattle.pack.specs.Bytes.{marks_in};
ghost use Rattle.pack.specs.Pack.{GivesPack};
ghost use Rattle.pack.specs.Question.{GivesQuestion};
ghost use Rattle.engine.specs.Verdict.{GivesVerdict};
ghost use Rattle.writer.specs.Sheet.{GivesSheet};

use engine::verdict::verdict;
use pack::check::check_pack;
use pack::question::Question;
use pack::told::coded;
use writer::write::write_sheet;

// The pack check for C.
#[unsafe(no_mangle)]
pub extern "C" fn noolukask_check_pack(n: u64, m: u64, pack: &[u8]) -> u64
    ensures { GivesPack n m pack.now (result % 256) (result / 256) }
{
    coded::<256, _>(&check_pack(n as usize, m as usize, pack))
}

// The question check for C.
#[unsafe(no_mangle)]
pub extern "C" fn noolukask_check_question<'a>(
    n: u64,
    m: u64,
    pack: &'a [u8],
    marks: &'a [u8],
    a: u64,
    b: u64,
) -> u64
    ensures { GivesQuestion n m pack.now (marks_in marks.now) a b (result % 256) (result / 256) }
{
    let mut words = [0; 16];
    let question = Question::from_c(n, m, pack, marks, &mut words, a, b);
    coded::<256, _>(&question.check())
}

// The verdict for C.
#[unsafe(no_mangle)]
pub extern "C" fn noolukask_verdict<'a>(
    n: u64,
    m: u64,
    pack: &'a [u8],
    marks: &'a [u8],
    a: u64,
    b: u64,
) -> u64
    ensures { GivesVerdict n m pack.now (marks_in marks.now) a b (result % 256) (result / 256) }
{
    let mut words = [0; 16];
    let question = Question::from_c(n, m, pack, marks, &mut words, a, b);
    coded::<256, _>(&verdict(&question))
}

// The sheet writer for C.
#[unsafe(no_mangle)]
pub extern "C" fn noolukask_write_sheet<'a>(
    n: u64,
    m: u64,
    pack: &'a [u8],
    marks: &'a [u8],
    a: u64,
    b: u64,
    sheet: &mut [u8],
) -> u64
    ensures { GivesSheet n m pack.now (marks_in marks.now) a b sheet.old sheet.new (result % 256) (result / 256) }
{
    let mut words = [0; 16];
    let question = Question::from_c(n, m, pack, marks, &mut words, a, b);
    coded::<256, _>(&write_sheet(&question, sheet))
}
