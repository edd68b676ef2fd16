// Reading a block: one pass for words above 32748 and the check, then the layout; opening, and the value bytes.
ghost use Rattle.std.specs.Prelude.{◌≡◌, ◌+◌, ◌≤◌, length, sum};
ghost use Rattle.answer.specs.Outcome.{checked, done};
ghost use Rattle.answer.specs.Checks.{first_fail};
ghost use Rattle.lists.specs.Places.{first_in, placed};
ghost use Rattle.block.specs.Layout.{front_words, within, right_at, first_wrong};
ghost use Rattle.block.specs.Open.{slot_lines, block_lines, one_lines, first_foreign, opening, value_bytes, value_start, words_of, opened};
ghost use Rattle.block.specs.Inner.{filled, scanned};

use crate::{Words, weigh, word};
use answer::{Checked, Kind, Refusal};

// One pass over a block: the check of words 1 to 255, or the first word above 32748. Each word is tested before it enters the sum.
fn scan(b: &[u8]) -> Result<u16, usize>
    requires { 512 ≤ length b.now }
    ensures { result ≡ scanned b.now }
{
    let mut sum: u32 = 0;
    for i in 1..256 {
        let v = word(b, i);
        if 32748 < v {
            return Err(i);
        }
        sum = weigh(sum, i, v);
    }
    if 32748 < word(b, 256) {
        return Err(256);
    }
    Ok((sum % 32749) as u16)
}

// low to high, both included.
fn within(low: u16, v: u16, high: u16) -> bool
    ensures { result ≡ within low v high }
{
    low <= v && v <= high
}

// Word i, from 1 to 7, keeps the layout.
fn right(b: &[u8], i: usize) -> bool
    requires in_bounds { 14 ≤ length b.now }
    requires le_i { (1 ≤ i) × (i ≤ 7) }
    ensures { result ≡ right_at b.now i }
{
    let v = word(b, i);
    match i {
        1 => v == 1987 || v == 1988,
        2 => v != 0,
        3 => within(1, v, 8),
        4 => within(1, v, 8) && word(b, 3) <= v,
        5 => {
            let people = word(b, 4);
            let most = if word(b, 1) == 1988 { people } else { 70 };
            within(1, v, most)
        }
        6 => within(1, v, 16),
        _ => within(1, v, word(b, 5)),
    }
}

// The sum of these bytes. It looks at every one of them, whatever it finds, so that many can be added at a time.
fn byte_sum(b: &[u8]) -> u32
    requires { length b.now ≤ 512 }
    ensures { result ≡ sum b.now }
{
    b.iter().map(|&v| v as u32).sum()
}

// The first word from `start` on, before `end`, that is not 0: word by word.
fn search_filled(b: &[u8], start: usize, end: usize) -> Option<usize>
    requires { (1 ≤ start) × (end ≤ 256) × (510 ≤ length b.now) }
    ensures { result ≡ placed (first_in (filled b.now) start end) }
{
    for i in start..end {
        if word(b, i) != 0 {
            return Some(i);
        }
    }
    None
}

// The same. Where all these words are 0, as in every good block, one sum over their bytes tells.
fn first_filled(b: &[u8], start: usize, end: usize) -> Option<usize>
    requires { (1 ≤ start) × (end ≤ 256) × (510 ≤ length b.now) }
    ensures { result ≡ placed (first_in (filled b.now) start end) }
{
    if end <= start {
        return None;
    }
    let from = 2 * (start - 1);
    let to = 2 * (end - 1);
    if byte_sum(&b[from..to]) == 0 {
        return None;
    }
    search_filled(b, start, end)
}

// Word 25 is none where the mark is the first scheme's, and a set of 1 to 70 where it is the other's.
fn right_set(b: &[u8]) -> bool
    requires { 50 ≤ length b.now }
    ensures { result ≡ right_at b.now 25 }
{
    let set = word(b, 25);
    if word(b, 1) == 1988 {
        within(1, set, 70)
    } else {
        set == 0
    }
}

// The first of words 1 to 255 that is not as SCOPE 4 has it: words 1 to 7, then the words past the values, which are 0 but for the year and
// the set.
pub fn first_wrong(b: &[u8]) -> Option<usize>
    requires { 510 ≤ length b.now }
    ensures { result ≡ placed (first_wrong b.now) }
{
    for i in 1..8 {
        if !right(b, i) {
            return Some(i);
        }
    }
    let width = word(b, 6);
    if let Some(i) = first_filled(b, 8 + width as usize, 24) {
        return Some(i);
    }
    if !right_set(b) {
        return Some(25);
    }
    first_filled(b, 26, 256)
}

// The first block of the rest of a pile, which is block a, for UNREAD and CHECK.
pub fn check_slots(rest: &[u8], a: usize) -> Checked
    requires { 512 ≤ length rest.now }
    ensures { checked result ≡ first_fail (slot_lines rest.now a) (done 0) }
{
    match scan(rest) {
        Err(i) => answer::refuse(Kind::Unread, a, i),
        Ok(sum) => {
            if sum != word(rest, 256) {
                return answer::refuse(Kind::Check, a, 0);
            }
            Ok(())
        }
    }
}

// The same block for UNREAD, CHECK and HEADER.
pub fn check_block(rest: &[u8], a: usize) -> Checked
    requires { 512 ≤ length rest.now }
    ensures { checked result ≡ first_fail (block_lines rest.now a) (done 0) }
{
    check_slots(rest, a)?;
    match first_wrong(rest) {
        Some(i) => answer::refuse(Kind::Header, a, i),
        None => Ok(()),
    }
}

// The first word that is not as a block of the first scheme has it.
fn first_foreign(b: &[u8]) -> Option<usize>
    requires { 510 ≤ length b.now }
    ensures { result ≡ placed (first_foreign b.now) }
{
    if word(b, 1) == 1988 {
        return Some(1);
    }
    first_wrong(b)
}

// A block that is lent alone and must be of the first scheme, block a of a call, for TORN, UNREAD, CHECK and HEADER.
pub fn check_one(b: &[u8], a: usize) -> Checked
    ensures { checked result ≡ first_fail (one_lines b.now a) (done 0) }
{
    if b.len() != 512 {
        return answer::refuse(Kind::Torn, 0, 0);
    }
    check_slots(b, a)?;
    match first_foreign(b) {
        Some(i) => answer::refuse(Kind::Header, a, i),
        None => Ok(()),
    }
}

// Words 1 to 7 of b.
fn front_words(b: &[u8]) -> Words
    requires { 14 ≤ length b.now }
    ensures { words_of result ≡ front_words b.now }
{
    Words {
        mark: word(b, 1),
        deal: word(b, 2),
        holder: word(b, 3),
        people: word(b, 4),
        pieces: word(b, 5),
        width: word(b, 6),
        piece: word(b, 7),
    }
}

// Opens the first block of a pile.
pub fn open(pile: &[u8]) -> Result<Words, Refusal>
    ensures { opened result ≡ opening pile.now }
{
    if pile.len() < 512 {
        return answer::refuse(Kind::Torn, 0, 0);
    }
    check_block(pile, 1)?;
    Ok(front_words(pile))
}

// The value bytes of the first block of a pile, a stretch of the pile itself; a refused block has none.
pub fn values(pile: &[u8]) -> &[u8]
    ensures content { result.now ≡ value_bytes pile.now }
    ensures place { result.ref_ptr ≡ (pile.entry.ref_ptr.0, pile.entry.ref_ptr.1 + value_start pile.now) }
{
    match open(pile) {
        Ok(h) => {
            let end = 14 + 2 * h.width as usize;
            &pile[14..end]
        }
        Err(_) => &pile[0..0],
    }
}
