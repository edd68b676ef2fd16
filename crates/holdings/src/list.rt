// Another maker's holding list (SCOPE 2.1), and what is said of one.

// The people, the pieces and how many of them are needed, and a mark for each person and piece: a row of marks for each person, one after another.
#[derive(Clone, Copy)]
pub struct Holdings<'a> {
    pub people: usize,
    pub pieces: usize,
    pub needed: usize,
    pub marks: &'a [u8],
}

// The list suits the policy; or the first group for which it does not: authorised with too few pieces, or not authorised with enough.
#[derive(Clone, Copy, PartialEq, Eq)]
pub enum Verdict {
    Suits,
    Few(usize),
    Many(usize),
}
