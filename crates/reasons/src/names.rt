// The names of a question, concepts and roles, and sets of them.
ghost use Rattle.std.specs.Prelude.{◌≡◌, ◌<◌};
ghost use Rattle.pack.specs.Record.{ValidLine};
ghost use Rattle.reasons.specs.Reach.{left_names, right_names};
ghost use Rattle.reasons.specs.Names.{IsShort, name_in, no_names, with_name, with_names, lacking, waits_for, Fresh};

use pack::line::Line;

// A name of a question: a concept or a role, by its number.
#[derive(Clone, Copy)]
pub enum Name {
    Concept(u8),
    Role(u8),
}

// Names of a question: a bit for each concept, and a bit for each role.
#[derive(Clone, Copy)]
pub struct Names {
    pub concepts: u64,
    pub roles: u64,
}

impl Names {
    // No names.
    pub(crate) fn none() -> Names
        ensures { result ≡ no_names }
    {
        Names {
            concepts: 0,
            roles: 0,
        }
    }

    // Is the name there?
    pub(crate) fn has(self, name: Name) -> bool
        requires { IsShort name }
        ensures { result ≡ name_in self name }
    {
        match name {
            Name::Concept(x) => bits::test_bit(self.concepts, x as usize),
            Name::Role(r) => bits::test_bit(self.roles, r as usize),
        }
    }

    // These names and one more.
    pub(crate) fn with(self, name: Name) -> Names
        requires { IsShort name }
        ensures { result ≡ with_name self name }
    {
        match name {
            Name::Concept(x) => Names {
                concepts: bits::with_bit(self.concepts, x as usize),
                ..self
            },
            Name::Role(r) => Names {
                roles: bits::with_bit(self.roles, r as usize),
                ..self
            },
        }
    }

    // The name, where it is not there.
    fn lacking(self, name: Name) -> Option<Name>
        requires { IsShort name }
        ensures { result ≡ lacking (name_in self) name }
    {
        if self.has(name) {
            return None;
        }
        Some(name)
    }

    // The first name of the line's left side that is not there.
    pub(crate) fn waits_for(self, l: Line) -> Option<Name>
        requires { ValidLine 64 8 l }
        ensures { result ≡ waits_for (name_in self) (left_names l) }
    {
        match l {
            Line::Under { a, .. } | Line::UnderSome { a, .. } => self.lacking(Name::Concept(a)),
            Line::BothUnder { a1, a2, .. } => self
                .lacking(Name::Concept(a1))
                .or(self.lacking(Name::Concept(a2))),
            Line::SomeUnder { r, a, .. } => self
                .lacking(Name::Role(r))
                .or(self.lacking(Name::Concept(a))),
            Line::RoleUnder { r, .. } => self.lacking(Name::Role(r)),
            Line::ChainUnder { r, s, .. } => self
                .lacking(Name::Role(r))
                .or(self.lacking(Name::Role(s))),
            Line::ToItself { .. } | Line::NoLine => None,
        }
    }

    // These names and those of the line's right side.
    pub(crate) fn with_right(self, l: Line) -> Names
        requires { ValidLine 64 8 l }
        ensures { result ≡ with_names self (right_names l) }
    {
        match l {
            Line::Under { b, .. } | Line::BothUnder { b, .. } | Line::SomeUnder { b, .. } => {
                self.with(Name::Concept(b))
            }
            Line::UnderSome { r, b, .. } => self.with(Name::Role(r)).with(Name::Concept(b)),
            Line::RoleUnder { s, .. } => self.with(Name::Role(s)),
            Line::ChainUnder { t, .. } => self.with(Name::Role(t)),
            Line::ToItself { r } => self.with(Name::Role(r)),
            Line::NoLine => self,
        }
    }

    // A name that is there and not yet done: the lowest of the concepts, then of the roles.
    pub(crate) fn next_after(self, done: Names) -> Option<Name>
        ensures { Fresh self done result }
    {
        if let Some(x) = bits::next_bit(bits::lacking(self.concepts, done.concepts), 0) {
            return Some(Name::Concept(x as u8));
        }
        let r = bits::next_bit(bits::lacking(self.roles, done.roles), 0)?;
        Some(Name::Role(r as u8))
    }
}
