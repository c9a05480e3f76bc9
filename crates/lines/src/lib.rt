// The bench program's lines: from the bytes of its input to the text that answers them, in a lent buffer.
#![tactic(auto)]

ghost use Rattle.lines.specs.Prints.{Prints, PrintsAsked, WritesThe, all_marks};

mod input;
mod parts;
mod question;

use crate::input::{Asked, read_input};
use crate::parts::mark_all;
use crate::question::question_text;
use pack::question::Question;
use pack::told::Told;
use text::outcome::write_refused;

// The text of a question about a pack, with everything marked.
fn ask(out: &mut [u8; 8192], asked: Asked, pack: &[u8]) -> usize
    ensures { WritesThe (PrintsAsked asked.n asked.m pack.now (all_marks pack.now) asked.a asked.b) out.old out.new result }
{
    let marks = mark_all(pack);
    let question = Question {
        n: asked.n as usize,
        m: asked.m as usize,
        pack,
        marks: &marks,
        a: asked.a as usize,
        b: asked.b as usize,
    };
    question_text(out, &question)
}

// The text that answers an input of any length and content: the position behind it.
pub fn answer(s: &[u8], out: &mut [u8; 8192]) -> usize
    ensures { WritesThe (Prints s.now) out.old out.new result }
{
    match read_input(s) {
        Ok(asked) => ask(out, asked, &s[..asked.at]),
        Err(why) => write_refused(out, why.number()),
    }
}
