// The reader (SCOPE 5), a pile and how far it has come: `new`, `next` and `values`. They take the struct apart and call `seen_at`, `after`
// and `values_of`, on the pile and a number. `read_at` and `read_all` stand above it, with plain parameters, so that their callers
// hold no reader. The definitions that the contracts cite are in specs/.
#![tactic(auto)]

ghost use Rattle.std.specs.Prelude.{◌≡◌};
ghost use Rattle.answer.specs.Outcome.{outcome};
ghost use Rattle.block.specs.Open.{opened};
ghost use Rattle.reader.specs.Seeing.{sight, counted, seeing, after, ValuesIn, stepped, reading};

use answer::{Answer, Kind, Refusal};
use block::Words;

// What the reader answers: words 1 to 7 of a block, or a refusal; or nothing, where the pile is at its end.
pub type Seen = Option<Result<Words, Refusal>>;

// A pile, and how many of its blocks were passed: 0 at the front, and else the number of the block passed last.
#[derive(Clone, Copy)]
pub struct Reader<'a> {
    pub pile: &'a [u8],
    pub block: usize,
}

// An answer, and how many blocks are passed after it.
#[derive(Clone, Copy)]
pub struct Step {
    pub seen: Seen,
    pub block: usize,
}

// What opening a block says, with a replaced by the block's number in the pile.
fn count_in(words: Result<Words, Refusal>, a: usize) -> Result<Words, Refusal>
    ensures { opened result ≡ counted a (opened words) }
{
    words.map_err(|refusal| Refusal { a, ..refusal })
}

// What the block after so many passed ones answers. A product is taken only where it is at most the pile's length.
pub fn seen_at(pile: &[u8], passed: usize) -> Seen
    ensures { sight result ≡ seeing pile.now passed }
{
    let n = pile.len();
    let whole = n / 512;
    if passed < whole {
        let words = block::open(&pile[512 * passed..]);
        return Some(count_in(words, passed + 1));
    }
    if whole < passed {
        return None;
    }
    if 512 * whole == n {
        return None;
    }
    Some(answer::refuse(Kind::Torn, 0, 0))
}

// How many blocks are passed after that answer.
pub fn after(pile: &[u8], passed: usize) -> usize
    ensures { result ≡ after pile.now passed }
{
    if passed < pile.len() / 512 {
        passed + 1
    } else {
        passed
    }
}

// The value bytes of block a, a stretch of the pile itself; a refused block has none, and where there is no block a there are none.
pub fn values_of(pile: &[u8], a: usize) -> &[u8]
    ensures { ValuesIn pile.entry a result }
{
    if a == 0 {
        return &pile[0..0];
    }
    if pile.len() / 512 < a {
        return &pile[0..0];
    }
    let at = 512 * (a - 1);
    block::values(&pile[at..])
}

// A reader at the front of a pile.
pub fn new<'a>(pile: &'a [u8]) -> Reader<'a>
    ensures { (result.pile ≡ pile.entry) × (result.block ≡ 0) }
{
    Reader { pile, block: 0 }
}

// Answers for the next block and passes it, also if it was refused; with no block left it answers so, and does not move.
pub fn next<'s, 'a>(r: &'s mut Reader<'a>) -> Seen
    ensures { (sight result ≡ seeing r.old.pile.now r.old.block) × (r.new ≡ stepped r.old) }
{
    let seen = seen_at(r.pile, r.block);
    r.block = after(r.pile, r.block);
    seen
}

// The answers for the blocks in turn. After the last block it ends; where bytes are left over it answers TORN from there on.
impl Iterator for Reader<'_> {
    type Item = Result<Words, Refusal>;

    ghost use Rattle.std.specs.Prelude.{◌≡◌};
    ghost use Rattle.reader.specs.Seeing.{sight, seeing, stepped};

    ghost next_gives = { λ r seen s. (sight seen ≡ seeing r.pile.now r.block) × (s ≡ stepped r) };

    fn next(&mut self) -> Seen {
        next(self)
    }
}

// The value bytes of the block passed last: after `next` has answered with words 1 to 7, those of that block. TORN and the end pass no
// block: after them it is still the one before.
pub fn values<'a>(r: Reader<'a>) -> &'a [u8]
    ensures { ValuesIn r.entry.pile r.entry.block result }
{
    values_of(r.pile, r.block)
}

// What `next` answers after so many blocks, and how many are passed then: for callers that keep a pile and a number.
pub fn read_at(pile: &[u8], passed: usize) -> Step
    ensures { (sight result.seen ≡ seeing pile.now passed) × (result.block ≡ after pile.now passed) }
{
    let mut r = Reader {
        pile,
        block: passed,
    };
    let seen = next(&mut r);
    Step {
        seen,
        block: r.block,
    }
}

// Reads a pile from the front to its end, or to the first refusal: how many blocks it has, or that refusal.
pub fn read_all(pile: &[u8]) -> Answer
    ensures { outcome result ≡ reading pile.now }
{
    let mut r = new(pile);
    while let Some(seen) = next(&mut r) {
        seen?;
    }
    Ok(r.block)
}
