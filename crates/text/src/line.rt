// Lines in a buffer of 8,192 bytes, each behind what is written before it.
ghost use Rattle.std.specs.Prelude.{◌≡◌, [], ◌∷◌, ◌+◌, ◌≤◌, ◌<◌, length};
ghost use Rattle.marks.specs.Marks.{marked};
ghost use Rattle.text.specs.Inner.{Added};
ghost use Rattle.text.specs.Text.{decimal, places, number_line, list_line};

use itoa::Buffer;
use marks::look::{count_marked, places};

// A text that grows in a lent buffer: it ends at `end`.
#[derive(Drop)]
pub(crate) struct Text<'b> {
    out: &'b mut [u8; 8192],
    pub(crate) end: usize,
}

impl<'b> Text<'b> {
    // No text yet, from the start of the buffer on.
    pub(crate) fn new(out: &'b mut [u8; 8192]) -> Text<'b>
        ensures buffer { result.out.now ≡ out.old }
        ensures start { result.end ≡ 0 }
        ensures same_buffer { result.out.ghost_name ≡ out.entry.ghost_name }
    {
        Text { out, end: 0 }
    }

    // A word.
    fn push_word(&mut self, word: &[u8])
        requires { self.old.end + length word.now ≤ 8192 }
        ensures { Added word.now self.old self.new }
    {
        let end = self.end + word.len();
        let out = &mut *self.out;
        out[self.end..end].copy_from_slice(word);
        self.end = end;
    }

    // A number in decimal.
    fn push_number(&mut self, k: u32)
        requires { self.old.end + length (decimal k) ≤ 8192 }
        ensures { Added (decimal k) self.old self.new }
    {
        let mut digits = Buffer::new();
        self.push_word(digits.format(k).as_bytes());
    }

    // The marked places, ascending, each behind a space.
    fn push_places(&mut self, marks: &[u64])
        requires { self.old.end + length (places (marked marks.now) 1024) ≤ 8192 }
        ensures { Added (places (marked marks.now) 1024) self.old self.new }
    {
        for i in places(marks) {
            self.push_word(b" ");
            self.push_number(i as u32);
        }
    }

    // A word and a number: up to 10 digits, and the newline.
    pub(crate) fn number_line(&mut self, word: &[u8], k: u32)
        requires { self.old.end + length word.now + 11 ≤ 8192 }
        ensures { Added (number_line word.now k) self.old self.new }
    {
        self.push_word(word);
        self.push_number(k);
        self.push_word(b"\n");
    }

    // A word, how many places are marked, and which: up to 4 digits, the colon, 4,010 bytes of places and the newline.
    pub(crate) fn list_line(&mut self, word: &[u8], marks: &[u64])
        requires { self.old.end + length word.now + 4016 ≤ 8192 }
        ensures { Added (list_line word.now (marked marks.now)) self.old self.new }
    {
        self.push_word(word);
        self.push_number(count_marked(marks));
        self.push_word(b":");
        self.push_places(marks);
        self.push_word(b"\n");
    }
}
