// The whole text of an outcome, from the start of a buffer of 8,192 bytes: it always fits.
ghost use Rattle.marks.specs.Marks.{marked};
ghost use Rattle.text.specs.Text.{Outcome, WroteText};

use crate::line::Text;

// A refusal by its number.
pub fn write_refused(out: &mut [u8; 8192], number: u32) -> usize
    ensures { WroteText (Outcome.refused number) out.old out.new result }
{
    let mut text = Text::new(out);
    text.number_line(b"refused ", number);
    text.end
}

// A refusal of RECORD, with its place.
pub fn write_refused_at(out: &mut [u8; 8192], place: u32) -> usize
    ensures { WroteText (Outcome.refused_at place) out.old out.new result }
{
    let mut text = Text::new(out);
    text.number_line(b"refused 3 ", place);
    text.end
}

// FOLLOWS: the steps, the module by its marks, the set by its own.
pub fn write_follows<'a>(
    out: &mut [u8; 8192],
    steps: u32,
    marks: &'a [u64],
    set: &'a [u64],
) -> usize
    ensures { WroteText (Outcome.follows steps (marked marks.now) (marked set.now)) out.old out.new result }
{
    let mut text = Text::new(out);
    text.number_line(b"follows ", steps);
    text.list_line(b"module ", marks);
    text.list_line(b"set ", set);
    text.end
}

// NOT: the rows, the module by its marks.
pub fn write_not(out: &mut [u8; 8192], rows: u32, marks: &[u64]) -> usize
    ensures { WroteText (Outcome.not_follows rows (marked marks.now)) out.old out.new result }
{
    let mut text = Text::new(out);
    text.number_line(b"not ", rows);
    text.list_line(b"module ", marks);
    text.end
}
