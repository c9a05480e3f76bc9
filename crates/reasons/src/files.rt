// The records of a walk, filed: under a name of the left side that a record waits for, or, where it waits for none, as reached.
ghost use Rattle.std.specs.Prelude.{◌≡◌, false, ◌||◌, ℕ, ◌<◌, eqb, Option, None, Some};
ghost use Rattle.std.specs.Option.{ForSome};
ghost use Rattle.marks.specs.Marks.{marked, marks_of};
ghost use Rattle.reasons.specs.Names.{IsShort, filed, IsFiled};

use crate::names::Name;
use marks::change::cut_marks;

// The places of records, marked: of those that wait for a concept, of those that wait for a role, and of those reached.
#[derive(Drop)]
pub(crate) struct Files {
    pub concepts: [[u64; 16]; 64],
    pub roles: [[u64; 16]; 64],
    pub reached: [u64; 16],
}

// Place i marked too.
fn mark(marks: &mut [u64; 16], i: usize)
    requires { i < 1024 }
    ensures { (k : ℕ) → marked marks.new k ≡ (marked marks.old k || eqb i k) }
{
    let at = i / 64;
    let w = bits::with_bit(marks[at], i);
    marks[at] = w;
}

impl Files {
    // Nothing filed.
    pub(crate) fn clear() -> Files
        ensures { (x : Option Name) (i : ℕ) → filed result x i ≡ false }
    {
        Files {
            concepts: [[0; 16]; 64],
            roles: [[0; 16]; 64],
            reached: [0; 16],
        }
    }

    // The places filed under a name.
    pub(crate) fn under(&self, name: Name) -> [u64; 16]
        requires { IsShort name }
        ensures { (i : ℕ) → marked result i ≡ filed self.now (Some name) i }
    {
        match name {
            Name::Concept(x) => self.concepts[x as usize],
            Name::Role(r) => self.roles[r as usize],
        }
    }

    // The places filed as reached.
    pub(crate) fn reached_marks(&self) -> [u64; 16]
        ensures words { result ≡ marks_of (marked result) }
        ensures places { (i : ℕ) → marked result i ≡ filed self.now None i }
    {
        cut_marks(&self.reached, 0, 0)
    }

    // Place i filed under a name, or as reached.
    pub(crate) fn file(&mut self, name: Option<Name>, i: usize)
        requires { ForSome name IsShort × (i < 1024) }
        ensures { IsFiled self.old self.new name i }
    {
        match name {
            Some(Name::Concept(x)) => mark(&mut self.concepts[x as usize], i),
            Some(Name::Role(r)) => mark(&mut self.roles[r as usize], i),
            None => mark(&mut self.reached, i),
        }
    }
}
