// Holding lists, and the policies for which they are judged.
use crate::show::{refused, show};
use planning::{Policy, Rows};
use std::io;
use std::io::Write;

// Any two of three people.
pub fn two_of_three(to: &mut impl Write) -> io::Result<()> {
    let pairs = [3u16, 5, 6];
    let each = [1u8, 0, 0, 0, 1, 0, 0, 0, 1];
    show(to, b"one piece each, two needed", 3, &pairs, 3, 3, 2, &each)?;
    show(
        to,
        b"one piece each, three needed",
        3,
        &pairs,
        3,
        3,
        3,
        &each,
    )?;
    show(to, b"one piece each, one needed", 3, &pairs, 3, 3, 1, &each)?;
    let shared = [1u8, 0, 1, 0, 0, 1];
    show(to, b"1 and 2 have one piece", 3, &pairs, 3, 2, 2, &shared)?;
    let unheld = [1u8, 0, 0, 0, 0, 1, 0, 0, 0, 0, 1, 0];
    show(
        to,
        b"one each, and one that nobody has",
        3,
        &pairs,
        3,
        4,
        2,
        &unheld,
    )?;
    let idle = [1u8, 0, 0, 1, 0, 0];
    show(to, b"person 3 has nothing", 3, &pairs, 3, 2, 2, &idle)?;
    let alike = [1u8, 0, 1, 0];
    show(
        to,
        b"two people with one row",
        2,
        &pairs[..1],
        2,
        2,
        2,
        &alike,
    )
}

// The policy of P1 with its own holdings, and with a mark turned.
pub fn first_policy(to: &mut impl Write) -> io::Result<()> {
    let sets = [3u16, 6, 12];
    let own = [0u8, 0, 1, 1, 1, 0, 0, 1, 1, 1, 0, 0];
    let less = [0u8, 0, 1, 1, 1, 0, 0, 1, 1, 0, 0, 0];
    let more = [1u8, 0, 1, 1, 1, 0, 0, 1, 1, 1, 0, 0];
    show(to, b"P1's own holdings", 4, &sets, 4, 3, 3, &own)?;
    show(to, b"without holder 4's piece 1", 4, &sets, 4, 3, 3, &less)?;
    show(
        to,
        b"holders 1 and 4 with piece 1",
        4,
        &sets,
        4,
        3,
        3,
        &more,
    )
}

// The sets of five of eight people.
fn fives() -> [u16; 56] {
    let mut sets = [0u16; 56];
    let mut n: usize = 0;
    for g in 0..256 {
        if u32::count_ones(g) == 5 {
            if n < 56 {
                sets[n] = g as u16;
                n += 1;
            }
        }
    }
    sets
}

// The marks of a plan of 70 pieces for eight people, but for one at index `out`: a person holds the pieces whose rows have no mark there.
fn own_marks(rows: &Rows, out: usize) -> [u8; 560] {
    let mut marks = [0u8; 560];
    for at in 0..560 {
        if at != out && !rows[at % 70][at / 70] {
            marks[at] = 1;
        }
    }
    marks
}

// Any five of eight people, one piece each.
pub fn one_each(to: &mut impl Write) -> io::Result<()> {
    let sets = fives();
    let each = [
        1u8, 0, 0, 0, 0, 0, 0, 0, 0, 1, 0, 0, 0, 0, 0, 0, 0, 0, 1, 0, 0, 0, 0, 0, 0, 0, 0, 1, 0, 0,
        0, 0, 0, 0, 0, 0, 1, 0, 0, 0, 0, 0, 0, 0, 0, 1, 0, 0, 0, 0, 0, 0, 0, 0, 1, 0, 0, 0, 0, 0,
        0, 0, 0, 1,
    ];
    show(
        to,
        b"five of eight pieces, one each",
        8,
        &sets,
        8,
        8,
        5,
        &each,
    )?;
    show(
        to,
        b"four of eight pieces, one each",
        8,
        &sets,
        8,
        8,
        4,
        &each,
    )
}

// The same with our own holdings, and with a mark left out.
pub fn our_own(to: &mut impl Write) -> io::Result<()> {
    let sets = fives();
    let policy = Policy {
        people: 8,
        required: &sets,
        forbidden: &[],
    };
    let plan = match planning::plan(policy) {
        Ok(plan) => plan,
        Err(r) => return refused(to, r),
    };
    let own = own_marks(&plan.rows, 560);
    show(to, b"our own 70 pieces", 8, &sets, 8, 70, 70, &own)?;
    show(to, b"69 of them needed", 8, &sets, 8, 70, 69, &own)?;
    let less = own_marks(&plan.rows, 490);
    show(
        to,
        b"without holder 8's piece 1",
        8,
        &sets,
        8,
        70,
        70,
        &less,
    )
}

// Lists that are not in order, for the policy of P1.
pub fn rows(to: &mut impl Write) -> io::Result<()> {
    let sets = [3u16, 6, 12];
    let marks = [0u8, 0, 1, 1, 1, 0, 0, 1, 1, 1, 0, 0, 0];
    let two = [0u8, 0, 1, 1, 1, 0, 0, 1, 1, 1, 0, 2];
    let top = [255u8, 0, 1, 1, 1, 0, 0, 1, 1, 1, 0, 0];
    let long = [0u8; 284];
    let large = 1152921504606846976;
    show(
        to,
        b"three people for four",
        4,
        &sets,
        3,
        3,
        3,
        &marks[..12],
    )?;
    show(to, b"five people for four", 4, &sets, 5, 3, 3, &marks[..12])?;
    show(to, b"no piece", 4, &sets, 4, 0, 0, &marks[..0])?;
    show(
        to,
        b"70 pieces that nobody has",
        4,
        &sets,
        4,
        70,
        3,
        &long[..280],
    )?;
    show(to, b"71 pieces", 4, &sets, 4, 71, 3, &long)?;
    show(to, b"2^60 pieces", 4, &sets, 4, large, 3, &marks[..12])?;
    show(to, b"none needed", 4, &sets, 4, 3, 0, &marks[..12])?;
    show(to, b"four of three needed", 4, &sets, 4, 3, 4, &marks[..12])?;
    show(to, b"11 marks", 4, &sets, 4, 3, 3, &marks[..11])?;
    show(to, b"13 marks", 4, &sets, 4, 3, 3, &marks)?;
    show(to, b"a mark of 2", 4, &sets, 4, 3, 3, &two)?;
    show(to, b"a mark of 255", 4, &sets, 4, 3, 3, &top)
}

// What planning refuses, with a list that is out of order too.
pub fn planning_first(to: &mut impl Write) -> io::Result<()> {
    let sets = [3u16, 6, 12];
    let lone = [3u16, 12, 4];
    let marks = [2u8; 3];
    show(to, b"no people", 0, &sets, 4, 0, 0, &marks)?;
    show(to, b"a stranger", 3, &sets, 4, 0, 0, &marks)?;
    show(to, b"a required set of one", 4, &lone, 3, 71, 72, &marks)
}
