// Words in 8 bytes, the low byte first: read and written.
ghost use Rattle.std.specs.Prelude.{◌≡◌, ◌+◌, ◌*◌, ◌/◌, ◌<◌, ◌≤◌, length};
ghost use Rattle.pack.specs.Bytes.{part, word_in, word_bytes, words_in, words_bytes, marks_in};

// The number of two bytes, as a place.
pub fn two_bytes(lo: u8, hi: u8) -> usize
    ensures { result ≡ lo + hi * 256 }
{
    u16::from_le_bytes([lo, hi]) as usize
}

// The 8-byte part at an index, which starts at 8 times it.
pub fn part_at(s: &[u8], i: usize) -> &[u8]
    requires { i < length s.now / 8 }
    ensures { result.now ≡ part s.now i }
{
    let at = i * 8;
    let end = at + 8;
    &s[at..end]
}

// The word of an 8-byte part.
pub fn read_word(part: &[u8]) -> u64
    requires { 8 ≤ length part.now }
    ensures { result ≡ word_in part.now }
{
    u64::from_le_bytes([
        part[0], part[1], part[2], part[3], part[4], part[5], part[6], part[7],
    ])
}

// The 8 bytes of a word into its part, the low one first.
pub fn write_word(part: &mut [u8], w: u64)
    requires { length part.old ≡ 8 }
    ensures { part.new ≡ word_bytes w }
{
    part.copy_from_slice(&w.to_le_bytes());
}

// The 16 words of 128 bytes: marks as the desk hands them over.
pub fn read_marks(s: &[u8]) -> [u64; 16]
    requires { length s.now ≡ 128 }
    ensures { result ≡ words_in s.now }
{
    let mut words = [0u64; 16];
    for j in 0..16 {
        words[j] = read_word(part_at(s, j));
    }
    words
}

// The 16 words into the 128 bytes of out marks, each into the part that starts at 8 times its index.
pub fn write_marks(words: &[u64; 16], out: &mut [u8])
    requires { (length words.now ≡ 16) × (length out.old ≡ 128) }
    ensures { out.new ≡ words_bytes words.now }
{
    for j in 0..16 {
        let at = j * 8;
        let end = at + 8;
        write_word(&mut out[at..end], words[j]);
    }
}

// The words of marks that came as bytes, in an array that the caller lends: all 16, or none where the bytes are not 128.
pub fn marks_from<'w>(s: &[u8], words: &'w mut [u64; 16]) -> &'w [u64]
    ensures { result.now ≡ marks_in s.now }
{
    if s.len() != 128 {
        return &[];
    }
    *words = read_marks(s);
    words
}
