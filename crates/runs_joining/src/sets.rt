// Piles of blocks by sets, made word by word: a deal of number 7 to four people, of one word, 1234. Its sets are 1 and 2, 2 and 3, 3 and 4, of two
// pieces each.
ghost use Rattle.std.specs.Prelude.{◌≤◌, length};

use crate::{Joiner, front};
use std::io;
use std::io::Write;

// What a block of the deal holds beside the number, the people and w.
#[derive(Clone, Copy)]
struct Held {
    mark: u16,
    holder: u16,
    pieces: u16,
    piece: u16,
    value: u16,
    set: u16,
    check: u16,
}

fn made(mark: u16, holder: u16, pieces: u16, piece: u16, value: u16, set: u16, check: u16) -> Held {
    Held {
        mark,
        holder,
        pieces,
        piece,
        value,
        set,
        check,
    }
}

// Word i of the block that comes after the first a.
fn put(pile: &mut [u8], a: usize, i: usize, v: u16) {
    if a < 8 && 0 < i && i < 257 && 256 * a + i <= pile.len() / 2 {
        block::put_word(pile, 256 * a + i, v);
    }
}

// The block that comes after the first a.
fn put_block(pile: &mut [u8], a: usize, b: Held) {
    let words = [
        (1, b.mark),
        (2, 7),
        (3, b.holder),
        (4, 4),
        (5, b.pieces),
        (6, 1),
        (7, b.piece),
        (8, b.value),
        (25, b.set),
        (256, b.check),
    ];
    for (i, v) in words {
        put(pile, a, i, v);
    }
}

// The blocks of the cases, by number: piece j of set s of the deal is 10 s + j.
fn numbered(n: usize) -> Held {
    match n {
        11 => made(1988, 1, 2, 1, 1239, 1, 11981),
        12 => made(1988, 2, 2, 2, 1244, 1, 12031),
        21 => made(1988, 2, 2, 1, 1241, 2, 12025),
        22 => made(1988, 3, 2, 2, 1248, 2, 12091),
        31 => made(1988, 3, 2, 1, 1243, 3, 12069),
        32 => made(1988, 4, 2, 2, 1252, 3, 12151),
        _ => other(n),
    }
}

// Those that are not of the deal: 1 and 2 are pieces of the first scheme, 701 and 702 of set 70.
fn other(n: usize) -> Held {
    match n {
        1 => made(1987, 1, 2, 1, 1239, 0, 11955),
        2 => made(1987, 2, 2, 2, 1244, 0, 12005),
        701 => made(1988, 1, 2, 1, 1239, 70, 13706),
        702 => made(1988, 2, 2, 2, 1244, 70, 13756),
        _ => odd(n),
    }
}

// And those that are odd: 101 is a piece of a set of one; 111 and 311 are 11 and 31 with another value, 112 is 11 with three pieces in its set, 113 with
// both; 900 is of set 0, 971 of set 71, 905 has five pieces, and 901 is of set 1 without sets.
fn odd(n: usize) -> Held {
    match n {
        101 => made(1988, 1, 1, 1, 1234, 1, 11936),
        111 => made(1988, 1, 2, 1, 1240, 1, 11989),
        112 => made(1988, 1, 3, 1, 1239, 1, 11986),
        113 => made(1988, 1, 3, 1, 1240, 1, 11994),
        311 => made(1988, 3, 2, 1, 1244, 3, 12077),
        900 => made(1988, 1, 2, 1, 1239, 0, 11956),
        971 => made(1988, 1, 2, 1, 1239, 71, 13731),
        905 => made(1988, 1, 5, 1, 1239, 1, 11996),
        _ => made(1987, 1, 2, 1, 1239, 1, 11980),
    }
}

// The pile of the blocks of these numbers, four at most.
fn pile(to: &mut impl Write, joiner: Joiner, name: &[u8], numbers: &[usize]) -> io::Result<()>
    requires { length numbers.now ≤ 4 }
{
    let mut cards = [0u8; 2048];
    for (a, &number) in numbers.iter().enumerate() {
        put_block(&mut cards, a, numbered(number));
    }
    let mut words = [9u16; 2];
    front(to, joiner, name, &cards, 512 * numbers.len(), &mut words)
}

// Whole cards of two people.
fn groups(to: &mut impl Write, joiner: Joiner) -> io::Result<()> {
    pile(to, joiner, b"1 and 2:", &[11, 12, 21])?;
    pile(to, joiner, b"2 and 1:", &[12, 21, 11])?;
    pile(to, joiner, b"1 and 3:", &[11, 22, 31])?;
    pile(to, joiner, b"1 and 4:", &[11, 32])?;
    pile(to, joiner, b"2 and 3:", &[12, 21, 22, 31])?;
    pile(to, joiner, b"2 and 4:", &[12, 21, 32])?;
    pile(to, joiner, b"3 and 4:", &[22, 31, 32])
}

// The smallest set, the highest one, and of two complete sets, one of them altered, the lower.
fn lowest(to: &mut impl Write, joiner: Joiner) -> io::Result<()> {
    pile(to, joiner, b"a set of one piece:", &[101])?;
    pile(to, joiner, b"set 70:", &[702, 701])?;
    pile(to, joiner, b"sets 3 and 1, 3 altered:", &[311, 32, 11, 12])?;
    pile(to, joiner, b"sets 3 and 1, 1 altered:", &[31, 32, 111, 12])
}

// Blocks that contradict each other.
fn conflicts(to: &mut impl Write, joiner: Joiner) -> io::Result<()> {
    pile(to, joiner, b"a piece with other values:", &[11, 111])?;
    pile(to, joiner, b"a piece with another count:", &[11, 112])?;
    pile(to, joiner, b"a set with another count:", &[12, 112])?;
    pile(to, joiner, b"other values, third:", &[12, 11, 111])?;
    pile(to, joiner, b"both, third:", &[12, 11, 113])?;
    pile(to, joiner, b"one number in two sets:", &[11, 21])
}

// Blocks of both schemes, and headers that neither has.
fn marks(to: &mut impl Write, joiner: Joiner) -> io::Result<()> {
    pile(to, joiner, b"a block without sets on top:", &[1, 11, 12])?;
    pile(to, joiner, b"a block by sets at the end:", &[1, 2, 11])?;
    pile(to, joiner, b"without sets:", &[1, 2])?;
    pile(to, joiner, b"set 0:", &[900])?;
    pile(to, joiner, b"set 71:", &[971])?;
    pile(to, joiner, b"five pieces of four people:", &[905])?;
    pile(to, joiner, b"set 1 without sets:", &[901])
}

pub fn by_sets(to: &mut impl Write, joiner: Joiner) -> io::Result<()> {
    groups(to, joiner)?;
    lowest(to, joiner)?;
    conflicts(to, joiner)?;
    marks(to, joiner)
}
