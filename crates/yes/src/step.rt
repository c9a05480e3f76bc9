// One step of a yes sheet: read, judged by what is held so far, and its conclusion added to that.
ghost use Rattle.std.specs.Prelude.{◌≡◌, cond, ◌&&◌, ◌≤◌, ◌/◌, ltb, length};
ghost use Rattle.pack.specs.Rules.{conclusion_of, number_fits, numbers_fit};
ghost use Rattle.pack.specs.Record.{lines_of};
ghost use Rattle.pack.specs.Question.{counted};
ghost use Rattle.tables.specs.Tables.{held, added_concepts, added_links};
ghost use Rattle.yes.specs.YesSheet.{step_in, zeros_in, good_over};

use marks::look::is_marked;
use pack::bytes::two_bytes;
use pack::line::{Rule, Step, line_at, rule_of};
use pack::question::Question;
use tables::Tables;

// The step in an 8-byte part.
fn read_step(part: &[u8]) -> Step
    requires { 8 ≤ length part.now }
    ensures { result ≡ step_in part.now }
{
    Step {
        place: two_bytes(part[0], part[1]),
        x: part[2],
        y: part[3],
        z: part[4],
    }
}

// Are the last three bytes of the part zero? Here and in `numbers_fit` an `&` is faster than the branches of an `&&`.
fn zeros_zero(part: &[u8]) -> bool
    requires { 8 ≤ length part.now }
    ensures { result ≡ zeros_in part.now }
{
    (part[5] == 0) & (part[6] == 0) & (part[7] == 0)
}

// Is a used number below n, and an unused one zero?
fn number_fits(used: bool, y: u8, n: usize) -> bool
    ensures { result ≡ number_fits used n y }
{
    if used { (y as usize) < n } else { y == 0 }
}

// Do a step's numbers fit the rule: X below n, and Y and Z each used or zero?
fn numbers_fit(rule: Rule, s: Step, n: usize) -> bool
    ensures { result ≡ numbers_fit rule n s }
{
    let low = (s.x as usize) < n;
    low & (number_fits(1 < rule.uses, s.y, n) & number_fits(2 < rule.uses, s.z, n))
}

// Is the place that of a record that counts?
fn place_counts(q: &Question, place: usize) -> bool
    ensures { result ≡ (ltb place (length q.now.pack.now / 8) && counted q.now.pack.now q.now.marks.now place) }
{
    place < q.pack.len() / 8 && is_marked(q.marks, place)
}

// The step in an 8-byte part: is it good? If so its conclusion is added, and if not nothing is.
#[tactic(auto, using(crate::proofs::StepLaws::good_parts))]
pub fn check_step(q: &Question, part: &[u8], tables: &mut Tables) -> bool
    requires { 8 ≤ length part.now }
    ensures good { result ≡ (zeros_in part.now && good_over (lines_of q.now.pack.now) (counted q.now.pack.now q.now.marks.now) q.now.n (held tables.old.concepts tables.old.links) (step_in part.now)) }
    ensures concepts { tables.new.concepts ≡ cond result (added_concepts (conclusion_of (lines_of q.now.pack.now) (step_in part.now)) tables.old.concepts) tables.old.concepts }
    ensures links { tables.new.links ≡ cond result (added_links (conclusion_of (lines_of q.now.pack.now) (step_in part.now)) tables.old.links) tables.old.links }
{
    let s = read_step(part);
    if zeros_zero(part) && place_counts(q, s.place) {
        let rule = rule_of(line_at(q.pack, s.place), s.x, s.y, s.z);
        if numbers_fit(rule, s, q.n) && tables.holds(rule.one) && tables.holds(rule.two) {
            tables.add(rule.gives);
            return true;
        }
    }
    false
}
