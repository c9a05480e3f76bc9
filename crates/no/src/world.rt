// The world of a no sheet: a line and the goal are tested thing by thing, on whole rows.
ghost use Rattle.std.specs.Prelude.{◌≡◌, ◌+◌, ◌*◌, ◌/◌, ◌≤◌, ◌<◌, length};
ghost use Rattle.bits.specs.Bit.{has};
ghost use Rattle.bits.specs.Sets.{every};
ghost use Rattle.pack.specs.Computed.{implies, obeys_at, obeys};
ghost use Rattle.no.specs.NoSheet.{row_at, world_of};
ghost use Rattle.no.specs.Computed.{refutes};
ghost use Rattle.no.specs.Inner.{ThingsColumn, ColumnFor, RoleFits, LineFits};

use crate::row::row_at;
use crate::thing::{row_both, row_inside, row_some_under, row_under, row_under_some};
use pack::line::Line;

// So many things, and the sheet of their rows: first the concepts that each is in, then the things that each is linked to,
// role by role.
#[derive(Clone, Copy)]
pub struct World<'a> {
    pub things: usize,
    pub sheet: &'a [u8],
    ghost few: { things ≤ 64 },
    ghost rows: { things ≤ length sheet.now / 8 },
}

impl<'a> World<'a> {
    // The concepts that thing x is in.
    fn row(&self, x: usize) -> u64
        requires { x < self.now.things }
        ensures { result ≡ row_at self.now.sheet.now x }
    {
        row_at(self.sheet, x)
    }

    // The things that x is linked to by r.
    fn links_of(&self, x: usize, r: u8) -> u64
        requires { RoleFits self.now.things self.now.sheet.now r × (x < self.now.things) }
        ensures { result ≡ row_at self.now.sheet.now (self.now.things + (r * self.now.things + x)) }
    {
        row_at(self.sheet, self.things + (r as usize * self.things + x))
    }

    // The things in concept a, as one word.
    fn column_of(&self, a: u8) -> u64
        requires { a < 64 }
        ensures { ThingsColumn (world_of self.now.things self.now.sheet.now) a result }
    {
        let mut column: u64 = 0;
        for y in 0..self.things {
            column = bits::column_with(column, self.row(y), a as usize, y);
        }
        column
    }

    // The column that a line needs.
    fn column_for(&self, l: Line) -> u64
        requires { LineFits self.now.things self.now.sheet.now l }
        ensures { ColumnFor (world_of self.now.things self.now.sheet.now) l result }
    {
        match l {
            Line::UnderSome { b, .. } => self.column_of(b),
            Line::SomeUnder { a, .. } => self.column_of(a),
            _ => 0,
        }
    }

    // Kind 6 at thing x: each thing y that x is linked to by r has all its links by s among those of x by t.
    fn chain_at(&self, x: usize, r: u8, s: u8, t: u8) -> bool
        requires { let rows = self.now.sheet.now in RoleFits self.now.things rows r × RoleFits self.now.things rows s × RoleFits self.now.things rows t × (x < self.now.things) }
        ensures { let k = self.now.things in let rows = self.now.sheet.now in result ≡ every k (λ y. implies (has (row_at rows (k + (r * k + x))) y) (every 64 (λ z. implies (has (row_at rows (k + (s * k + y))) z) (has (row_at rows (k + (t * k + x))) z)))) }
    {
        let whole = self.links_of(x, t);
        // The bits that are left stand in a word of their own: `bits::ones` shifts its word anew for each, which takes twice
        // the time on full rows.
        let mut rest = self.links_of(x, r);
        while let Some(y) = bits::next_bit(rest, 0) {
            if !row_inside(self.links_of(y, s), whole) {
                return false;
            }
            rest = bits::without_lowest(rest);
        }
        true
    }

    // Does thing x obey the line?
    #[tactic(auto, using(bits::proofs::BitLaws::low), unfolding(pack::specs::Computed::obeys_at))]
    fn thing_obeys(&self, l: Line, column: u64, x: usize) -> bool
        requires { LineFits self.now.things self.now.sheet.now l × ColumnFor (world_of self.now.things self.now.sheet.now) l column × (x < self.now.things) }
        ensures { result ≡ obeys_at (world_of self.now.things self.now.sheet.now) l x }
    {
        match l {
            Line::Under { a, b } => row_under(self.row(x), a, b),
            Line::BothUnder { a1, a2, b } => row_both(self.row(x), a1, a2, b),
            Line::UnderSome { a, r, .. } => {
                row_under_some(self.row(x), a, self.links_of(x, r), column)
            }
            Line::SomeUnder { r, b, .. } => {
                row_some_under(self.links_of(x, r), column, self.row(x), b)
            }
            Line::RoleUnder { r, s } => row_inside(self.links_of(x, r), self.links_of(x, s)),
            Line::ChainUnder { r, s, t } => self.chain_at(x, r, s, t),
            Line::ToItself { r } => bits::test_bit(self.links_of(x, r), x),
            Line::NoLine => true,
        }
    }

    // Does every thing obey the line?
    pub fn obeys(&self, l: Line) -> bool
        requires { LineFits self.now.things self.now.sheet.now l }
        ensures { result ≡ obeys (world_of self.now.things self.now.sheet.now) l }
    {
        let column = self.column_for(l);
        (0..self.things).all(|x| self.thing_obeys(l, column, x))
    }

    // Is some thing in a and not in b?
    pub fn refutes(&self, a: u8, b: u8) -> bool
        requires { (a < 64) × (b < 64) }
        ensures { result ≡ refutes (world_of self.now.things self.now.sheet.now) a b }
    {
        (0..self.things).any(|x| {
            let row = self.row(x);
            bits::test_bit(row, a as usize) & !bits::test_bit(row, b as usize)
        })
    }
}
