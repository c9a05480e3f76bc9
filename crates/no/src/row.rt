// The rows of a no sheet: one read, and the lowest with a forbidden bit.
ghost use Rattle.std.specs.Prelude.{◌≡◌, ◌&&◌, ◌*◌, ◌<◌, ◌/◌, leb, length};
ghost use Rattle.bits.specs.Bit.{has};
ghost use Rattle.bits.specs.Sets.{lowest, found_below, some};
ghost use Rattle.no.specs.NoSheet.{row_at, forbidden};

use pack::bytes::{part_at, read_word};

// Row i of the sheet.
#[tactic(auto, unfolding(crate::specs::NoSheet::row_at))]
pub fn row_at(sheet: &[u8], i: usize) -> u64
    requires { i < length sheet.now / 8 }
    ensures { result ≡ row_at sheet.now i }
{
    read_word(part_at(sheet, i))
}

// Does the word have a bit at or above `limit`?
fn past_limit(word: u64, limit: usize) -> bool
    ensures { result ≡ some 64 (λ j. leb limit j && has word j) }
{
    bits::next_bit(word, limit).is_some()
}

// Does row i have a forbidden bit: at or above n in the first k rows, at or above k in the others?
fn row_forbidden(sheet: &[u8], i: usize, n: usize, k: usize) -> bool
    requires { i < length sheet.now / 8 }
    ensures { result ≡ forbidden n k sheet.now i }
{
    let limit = if i < k { n } else { k };
    past_limit(row_at(sheet, i), limit)
}

// The lowest row with a forbidden bit, where there is one.
pub fn lowest_forbidden(sheet: &[u8], n: usize, k: usize) -> Option<usize>
    ensures { let rows = length sheet.now / 8 in result ≡ found_below rows (lowest (forbidden n k sheet.now) 0 rows) }
{
    (0..sheet.len() / 8).find(|i| row_forbidden(sheet, *i, n, k))
}
