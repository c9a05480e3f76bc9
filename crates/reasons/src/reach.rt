// The names reached from a concept, and the records that they reach: a record waits for a name of its left side that is not there.
ghost use Rattle.std.specs.Prelude.{◌≡◌, true, ℕ, ◌≤◌, ◌<◌, length};
ghost use Rattle.marks.specs.Marks.{marked, marks_of};
ghost use Rattle.pack.specs.Question.{counted};
ghost use Rattle.pack.specs.Record.{lines_of, ValidLine, Valid};
ghost use Rattle.reasons.specs.Reach.{left_names, IsModule};
ghost use Rattle.reasons.specs.Names.{name_in, with_line, waits_for, IsFiled, Walked};

use crate::files::Files;
use crate::names::Name;
pub use crate::names::Names;
use marks::look::places;
use pack::line::{Line, line_at};

// What is reached so far: the names, and the records by what they wait for.
#[derive(Drop)]
pub(crate) struct Reached {
    pub names: Names,
    pub files: Files,
}

impl Reached {
    // The line at place i: filed under a name of its left side that is not there; or its right side comes in.
    fn take(&mut self, l: Line, i: usize)
        requires { ValidLine 64 8 l × (i < 1024) }
        ensures names { self.new.names ≡ with_line self.old.names l }
        ensures files { IsFiled self.old.files self.new.files (waits_for (name_in self.old.names) (left_names l)) i }
    {
        let name = self.names.waits_for(l);
        self.files.file(name, i);
        if name.is_none() {
            self.names = self.names.with_right(l);
        }
    }

    // Each marked record, in turn.
    fn take_all<'a>(&mut self, pack: &'a [u8], marks: &'a [u64])
        requires { Valid 64 8 (lines_of pack.now) × (length pack.now ≤ 8192) }
        ensures { Walked (lines_of pack.now) (marked marks.now) (length (lines_of pack.now)) self.old self.new }
    {
        let records = pack.len() / 8;
        for i in places(marks) {
            if records <= i {
                return;
            }
            self.take(line_at(pack, i), i);
        }
    }
}

// The marks of the module for concept a: all marked records, and then, name by name, those that wait for it.
pub fn reached_records<'a>(pack: &'a [u8], marks: &'a [u64], a: u8) -> [u64; 16]
    requires { Valid 64 8 (lines_of pack.now) × (length pack.now ≤ 8192) × (length marks.now ≡ 16) × (a < 64) }
    ensures { (result ≡ marks_of (marked result)) × ((i : ℕ) → i < 1024 → marked result i ≡ true → counted pack.now marks.now i ≡ true) × IsModule (lines_of pack.now) (counted pack.now marks.now) a (marked result) }
{
    let mut reached = Reached {
        names: Names::none().with(Name::Concept(a)),
        files: Files::clear(),
    };
    reached.take_all(pack, marks);
    let mut done = Names::none();
    while let Some(name) = reached.names.next_after(done) {
        done = done.with(name);
        let waiting = reached.files.under(name);
        reached.take_all(pack, &waiting);
    }
    reached.files.reached_marks()
}
