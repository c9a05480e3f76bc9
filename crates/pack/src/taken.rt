// A question that is taken: nothing of 1 to 5 is refused.
ghost use Rattle.std.specs.Prelude.{◌≡◌, ◌&&◌, ◌/◌, ltb, length};
ghost use Rattle.std.specs.Prelude.{Ok};
ghost use Rattle.pack.specs.Record.{record_count};
ghost use Rattle.pack.specs.Computed.{check_question};

#[derive(Clone, Copy)]
pub struct Taken<'a> {
    pub n: usize,
    pub m: usize,
    pub pack: &'a [u8],
    pub marks: &'a [u64],
    pub a: usize,
    pub b: usize,
    ghost admitted: { check_question n m pack.now marks.now a b ≡ Ok (record_count pack.now) },
}
