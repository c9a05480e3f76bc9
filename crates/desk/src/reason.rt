// The module and the printed set for C, the marks in and out as 128 bytes.
ghost use Rattle.std.specs.Prelude.{◌≡◌, cond, eqb, ◌/◌, ◌%◌, length};
ghost use Rattle.desk.specs.Desk.{GivesModuleC, GivesSetC};
ghost use Rattle.desk.specs.Inner.{PutFound};

use pack::bytes::write_marks;
use pack::question::Question;
use pack::told::{Told, coded};
use reasons::module::module_for;
use reasons::set::printed_set;

// How many words are lent for the out marks of so many bytes: 16 for 128, and none for any other number, which is MARKS.
fn words_for(out: usize) -> usize
    ensures { result ≡ cond (eqb out 128) 16 0 }
{
    if out == 128 { 16 } else { 0 }
}

// The words that were found go into the out marks, where nothing is refused.
fn put_found(number: u32, found: &[u64; 16], out: &mut [u8])
    requires { (length found.now ≡ 16) × (number ≡ 0 → length out.old ≡ 128) }
    ensures { PutFound number found.now out.old out.new }
{
    if number == 0 {
        write_marks(found, out);
    }
}

// The module for C.
#[unsafe(no_mangle)]
pub extern "C" fn noolukask_module<'a>(
    n: u64,
    m: u64,
    pack: &'a [u8],
    marks: &'a [u8],
    a: u64,
    out: &mut [u8],
) -> u64
    ensures { GivesModuleC n m pack.now marks.now a out.old out.new (result % 256) (result / 256) }
{
    let mut words = [0; 16];
    let question = Question::from_c(n, m, pack, marks, &mut words, a, a);
    let mut found = [0; 16];
    let lent = words_for(out.len());
    let module = module_for(&question, &mut found[..lent]);
    put_found(module.number(), &found, out);
    coded::<256, _>(&module)
}

// The printed set for C.
#[unsafe(no_mangle)]
pub extern "C" fn noolukask_printed_set<'a>(
    n: u64,
    m: u64,
    pack: &'a [u8],
    marks: &'a [u8],
    a: u64,
    b: u64,
    out: &mut [u8],
) -> u64
    ensures { GivesSetC n m pack.now marks.now a b out.old out.new (result % 256) (result / 256) }
{
    let mut words = [0; 16];
    let question = Question::from_c(n, m, pack, marks, &mut words, a, b);
    let mut found = [0; 16];
    let lent = words_for(out.len());
    let set = printed_set(&question, &mut found[..lent]);
    put_found(set.number(), &found, out);
    coded::<256, _>(&set)
}
