// Which deal a block is of, and which piece of it: the words that say so, read in one place and compared in one place.
ghost use Rattle.std.specs.Prelude.{◌≡◌, ◌≤◌, length};
ghost use Rattle.block.specs.Deals.{deal_words, same_deal};
ghost use Rattle.block.specs.Layout.{piece_of};

use crate::word;

// The words that all blocks of a deal share: the scheme's mark, deal number, people, pieces, secret words, year. In a deal by sets each set has
// its own number of pieces, and they share none: 0.
#[derive(Clone, Copy, PartialEq, Eq)]
pub struct DealWords {
    pub mark: u16,
    pub number: u16,
    pub people: u16,
    pub pieces: u16,
    pub width: u16,
    pub year: u16,
}

// Those of the block b.
pub fn deal_words(b: &[u8]) -> DealWords
    requires { 48 ≤ length b.now }
    ensures { result ≡ deal_words b.now }
{
    let mark = word(b, 1);
    let pieces = if mark == 1988 { 0 } else { word(b, 5) };
    DealWords {
        mark,
        number: word(b, 2),
        people: word(b, 4),
        pieces,
        width: word(b, 6),
        year: word(b, 24),
    }
}

// Both are of one deal.
pub fn same_deal(x: DealWords, y: DealWords) -> bool
    ensures { result ≡ same_deal x y }
{
    x == y
}

// The piece of the block b: its number, after eight for each set before its own.
pub fn piece_of(b: &[u8]) -> usize
    requires { 50 ≤ length b.now }
    ensures { result ≡ piece_of b.now }
{
    let number = word(b, 7) as usize;
    let set = word(b, 25) as usize;
    if set == 0 {
        number
    } else {
        8 * (set - 1) + number
    }
}
