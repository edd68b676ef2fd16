// Plans the larger cases of SCOPE 8.2, the sources' examples and each refusal, and prints what comes out: for an accepted policy the
// number of pieces, the group of each and how many pieces each person holds; for another its refusal. And any half of the people and one
// more, which gives as many maximal groups as so many people can have.
#![tactic(auto)]

mod most;

ghost use Rattle.std.specs.Prelude.{◌≤◌, ◌<◌, length};

use answer::Refusal;
use planning::{Plan, Policy, Rows};
use std::io;
use std::io::Write;

fn number(to: &mut impl Write, x: usize) -> io::Result<()> {
    write!(to, " {x}")
}

// The people of a group, in braces.
fn group(to: &mut impl Write, row: [bool; 8]) -> io::Result<()> {
    to.write_all(b" {")?;
    for (i, &mark) in row.iter().enumerate() {
        if mark {
            write!(to, "{}", i + 1)?;
        }
    }
    to.write_all(b"}")
}

// The groups of the first k rows.
fn groups(to: &mut impl Write, k: usize, rows: &Rows) -> io::Result<()> {
    for &row in rows.iter().take(k) {
        group(to, row)?;
    }
    Ok(())
}

// How many of the first k rows do not mark person i + 1.
fn held(k: usize, i: usize, rows: &Rows) -> usize
    requires { i < 8 }
{
    rows.iter().take(k).filter(|row| !row[i]).count()
}

// How many pieces each person holds.
fn everybody(to: &mut impl Write, people: usize, plan: &Plan) -> io::Result<()> {
    for i in 0..8 {
        if i < people {
            number(to, held(plan.pieces, i, &plan.rows))?;
        }
    }
    Ok(())
}

fn accepted(to: &mut impl Write, people: usize, plan: &Plan) -> io::Result<()> {
    to.write_all(b" pieces")?;
    number(to, plan.pieces)?;
    to.write_all(b"\n missing")?;
    groups(to, plan.pieces, &plan.rows)?;
    to.write_all(b"\n held")?;
    everybody(to, people, plan)
}

fn refused(to: &mut impl Write, r: Refusal) -> io::Result<()> {
    to.write_all(b" refused")?;
    number(to, usize::from(r.kind))?;
    number(to, r.a)?;
    number(to, r.b)
}

// Plans the lists and prints the plan under its name.
fn show(
    to: &mut impl Write,
    name: &[u8],
    people: usize,
    required: &[u16],
    forbidden: &[u16],
) -> io::Result<()> {
    to.write_all(name)?;
    to.write_all(b"\n")?;
    let policy = Policy {
        people,
        required,
        forbidden,
    };
    match planning::plan(policy) {
        Ok(plan) => accepted(to, people, &plan)?,
        Err(r) => refused(to, r)?,
    }
    to.write_all(b"\n")
}

// What the digit of a person is worth in a set.
fn person(digit: u8) -> u16 {
    match digit {
        b'1' => 1,
        b'2' => 2,
        b'3' => 4,
        b'4' => 8,
        b'5' => 16,
        b'6' => 32,
        b'7' => 64,
        b'8' => 128,
        b'9' => 256,
        _ => 0,
    }
}

// The index of the set that a character belongs to, after one that belongs to `last`: a space begins the next set. There is room for 64.
fn after(last: usize, c: u8) -> usize
    requires { last ≤ 63 }
    ensures { result ≤ 63 }
{
    if c == b' ' {
        if last < 63 {
            return last + 1;
        }
    }
    last
}

// A list of sets, and how many they are.
#[derive(Clone, Copy)]
struct Sets {
    list: [u16; 64],
    count: usize,
}

// The sets of a text, each written as the digits of its people, a space between two; `-` is the empty set.
fn parse(text: &[u8]) -> Sets
    ensures { result.count ≤ length result.list }
{
    let mut list = [0u16; 64];
    let mut last = 0;
    for &c in text {
        last = after(last, c);
        list[last] |= person(c);
    }
    let count = if text.is_empty() { 0 } else { last + 1 };
    Sets { list, count }
}

fn case(
    to: &mut impl Write,
    name: &[u8],
    people: usize,
    required: &[u8],
    forbidden: &[u8],
) -> io::Result<()> {
    let need = parse(required);
    let bar = parse(forbidden);
    let r = need.count;
    let f = bar.count;
    let needed = need.list;
    let barred = bar.list;
    show(to, name, people, &needed[..r], &barred[..f])
}

// Lists of 256 and of 257 sets.
fn long_lists(to: &mut impl Write) -> io::Result<()> {
    let two = [3u16; 257];
    let one = [1u16; 257];
    show(
        to,
        b"256 required and 256 forbidden sets",
        2,
        &two[..256],
        &one[..256],
    )?;
    show(to, b"257 required sets", 2, &two, &one[..256])?;
    show(to, b"257 forbidden sets", 2, &two[..256], &one)?;
    show(to, b"257 sets in both lists, with strangers", 1, &two, &two)
}

fn five_of_eight(to: &mut impl Write) -> io::Result<()> {
    case(
        to,
        b"any five of eight",
        8,
        b"12345 12346 12347 12348 12356 12357 12358 12367 12368 12378 12456 12457 12458 12467 12468 12478 12567 12568 12578 12678 13456 13457 13458 13467 13468 13478 13567 13568 13578 13678 14567 14568 14578 14678 15678 23456 23457 23458 23467 23468 23478 23567 23568 23578 23678 24567 24568 24578 24678 25678 34567 34568 34578 34678 35678 45678",
        b"",
    )
}

fn source_003(to: &mut impl Write) -> io::Result<()> {
    case(
        to,
        b"source 003, example 1",
        6,
        b"1256 2356 2456 3456 12345 12346",
        b"",
    )?;
    case(
        to,
        b"the same, its maximal groups forbidden",
        6,
        b"1256 2356 2456 3456 12345 12346",
        b"256 1234 1235 1245 1345 2345 1236 1246 1346 2346 1356 1456",
    )?;
    case(
        to,
        b"source 003, example 6",
        6,
        b"1345 1356 1456 3456 123 234 125 235 245 126 236 246 256",
        b"",
    )?;
    case(
        to,
        b"source 003, example 7",
        6,
        b"12 13 24 34 25 45 56",
        b"",
    )
}

fn source_001(to: &mut impl Write) -> io::Result<()> {
    case(
        to,
        b"source 001, five people",
        5,
        b"123 125 134 245 345",
        b"",
    )
}

fn strangers(to: &mut impl Write) -> io::Result<()> {
    case(to, b"nobody at all", 0, b"12", b"")?;
    case(to, b"nine people", 9, b"9 -", b"9")?;
    case(to, b"a stranger at required place 2", 3, b"12 34 5", b"4")?;
    case(
        to,
        b"a stranger at forbidden place 3",
        3,
        b"12 -",
        b"1 2 34",
    )?;
    case(to, b"person 9 among eight", 8, b"9", b"")?;
    case(to, b"a stranger forbidden, nothing required", 2, b"", b"3")
}

// Required sets of one member.
fn alone(to: &mut impl Write) -> io::Result<()> {
    case(to, b"one person, who is required alone", 1, b"1", b"")?;
    case(
        to,
        b"person 8 required alone at place 3",
        8,
        b"12 78 8 1 18",
        b"",
    )?;
    case(
        to,
        b"a required set of one and an empty one",
        3,
        b"1 -",
        b"",
    )?;
    case(to, b"a set of one and clashes", 4, b"12 34 4", b"12 4")?;
    case(
        to,
        b"the same with two members each",
        4,
        b"12 34 14",
        b"12 4",
    )?;
    case(to, b"sets of one that are forbidden", 3, b"12 13", b"1 2 3")
}

fn clashes(to: &mut impl Write) -> io::Result<()> {
    case(to, b"nothing required", 2, b"", b"12")?;
    case(
        to,
        b"an empty required set at place 2",
        3,
        b"12 - -",
        b"123",
    )?;
    case(
        to,
        b"a clash at required place 2, forbidden place 2",
        4,
        b"134 12 23",
        b"234 124 12",
    )?;
    case(to, b"a required set that is forbidden", 2, b"12", b"12")?;
    case(to, b"a forbidden set inside a required one", 2, b"12", b"1")
}

fn main(rt: HostRuntime) -> io::Result<()> {
    let mut to = rt.stdout();
    five_of_eight(&mut to)?;
    most::most(&mut to)?;
    source_003(&mut to)?;
    source_001(&mut to)?;
    long_lists(&mut to)?;
    strangers(&mut to)?;
    alone(&mut to)?;
    clashes(&mut to)
}
