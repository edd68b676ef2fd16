// Deals P11's deal to every holder, a deal to eight people of whom any five open, and inputs that give each refusal, and prints what comes
// out, which is compared with `stdout`.
#![tactic(auto)]

mod eight;
mod show;
mod years;

use dealing::Deal;
use planning::Policy;
use std::io;
use std::io::Write;

// P1's policy.
pub const P1: Policy = Policy {
    people: 4,
    required: &[3, 6, 12],
    forbidden: &[9],
};

// Deals one card into the first `room` of 18000 bytes, all of them 9, and prints the answer under its name.
pub fn case(
    to: &mut impl Write,
    name: &str,
    deal: Deal,
    holder: usize,
    room: usize,
) -> io::Result<()> {
    let mut out = [9u8; 18000];
    if room <= 18000 {
        write!(to, "{name} {holder}:")?;
        let answer = dealing::deal(deal, holder, &mut out[..room]);
        show::show(to, answer, &out)?;
    }
    Ok(())
}

// A case with P1's policy in the year 0.
fn four<'a>(
    to: &mut impl Write,
    name: &str,
    number: usize,
    holder: usize,
    secret: &'a [u16],
    random: &'a [u16],
    room: usize,
) -> io::Result<()> {
    let deal = Deal {
        policy: P1,
        number,
        year: 0,
        secret,
        random,
    };
    case(to, name, deal, holder, room)
}

// The same, with one secret word d and the coefficients a and b.
fn one(
    to: &mut impl Write,
    name: &str,
    number: usize,
    holder: usize,
    d: u16,
    a: u16,
    b: u16,
    room: usize,
) -> io::Result<()> {
    four(to, name, number, holder, &[d], &[a, b], room)
}

// Secrets and randomness of other lengths.
fn lengths(to: &mut impl Write) -> io::Result<()> {
    let coefficients = [5u16, 7, 23483, 10512];
    four(
        to,
        "two words, holder",
        7,
        1,
        &[1234, 0],
        &coefficients,
        512,
    )?;
    four(to, "no secret, holder", 7, 4, &[], &[], 512)?;
    four(to, "17 words, holder", 7, 4, &[1; 17], &[1; 34], 512)?;
    four(
        to,
        "second word 32767, holder",
        7,
        4,
        &[1, 32767, 32749],
        &[],
        512,
    )?;
    four(
        to,
        "two words with two coefficients, holder",
        7,
        4,
        &[1234, 0],
        &[1234, 0],
        512,
    )?;
    four(
        to,
        "two words with none, holder",
        7,
        4,
        &[1234, 0],
        &[],
        512,
    )
}

// A policy without forbidden sets, dealt under number 1 in the year 0.
fn first<'a>(
    to: &mut impl Write,
    name: &str,
    people: usize,
    required: &'a [u16],
    holder: usize,
    secret: &'a [u16],
    random: &'a [u16],
    room: usize,
) -> io::Result<()> {
    let policy = Policy {
        people,
        required,
        forbidden: &[],
    };
    let deal = Deal {
        policy,
        number: 1,
        year: 0,
        secret,
        random,
    };
    case(to, name, deal, holder, room)
}

// A policy that planning refuses, with all else wrong.
fn wrong<'a>(
    to: &mut impl Write,
    name: &str,
    people: usize,
    required: &'a [u16],
    forbidden: &'a [u16],
) -> io::Result<()> {
    let policy = Policy {
        people,
        required,
        forbidden,
    };
    let deal = Deal {
        policy,
        number: 0,
        year: 0,
        secret: &[],
        random: &[],
    };
    case(to, name, deal, 5, 0)
}

// Other policies: P3, whose holder 3 has no piece; two people, who have a piece each; one person, who would open alone; and three that planning
// refuses, with all else wrong.
fn policies(to: &mut impl Write) -> io::Result<()> {
    let words = [1u16, 32748];
    first(to, "P3, no bytes, holder", 3, &[3], 3, &[1], &[1], 0)?;
    first(to, "two pieces, holder", 2, &[3], 1, &words, &words, 512)?;
    first(to, "one person alone, holder", 1, &[1], 1, &words, &[], 512)?;
    wrong(to, "all wrong, and one person alone, holder", 2, &[1], &[1])?;
    wrong(to, "all wrong, and clash, holder", 2, &[3], &[3])?;
    wrong(to, "all wrong, and nine people, holder", 9, &[], &[])
}

// A policy that planning refuses, with all else right.
fn bad<'a>(
    to: &mut impl Write,
    name: &str,
    people: usize,
    required: &'a [u16],
    forbidden: &'a [u16],
) -> io::Result<()> {
    let policy = Policy {
        people,
        required,
        forbidden,
    };
    let deal = Deal {
        policy,
        number: 1,
        year: 0,
        secret: &[1],
        random: &[],
    };
    case(to, name, deal, 1, 512)
}

// Refusals 1 to 6 and 22, as planning gives them.
fn bad_policies(to: &mut impl Write) -> io::Result<()> {
    let stranger = [1u16, 3, 4];
    let long = [1u16; 257];
    bad(to, "no people, holder", 0, &[1], &[])?;
    bad(to, "257 required sets, holder", 2, &long, &[])?;
    bad(to, "257 forbidden sets, holder", 2, &[1], &long)?;
    bad(to, "a stranger, holder", 2, &stranger, &[])?;
    bad(to, "a forbidden stranger, holder", 2, &[1], &stranger)?;
    bad(to, "no required set, holder", 2, &[], &[1])?;
    bad(to, "an empty required set, holder", 2, &[1, 0], &[])?;
    bad(to, "a required set of one, holder", 2, &[3, 2, 1], &[])?;
    bad(to, "the same set of one forbidden, holder", 2, &[1], &[1])?;
    bad(to, "clash, holder", 2, &[3], &[3])
}

// P11's deal to each of its holders.
fn holders(to: &mut impl Write) -> io::Result<()> {
    for holder in 1..5 {
        one(to, "P11, holder", 7, holder, 1234, 5, 7, 1536)?;
    }
    Ok(())
}

fn cards(to: &mut impl Write) -> io::Result<()> {
    one(to, "P9, holder", 7, 2, 32748, 1, 0, 1536)?;
    one(to, "P9, holder", 7, 3, 32748, 1, 0, 1536)?;
    one(
        to,
        "coefficients of 32748, holder",
        7,
        3,
        0,
        32748,
        32748,
        1536,
    )?;
    one(to, "512 bytes, holder", 7, 4, 1234, 5, 7, 512)?;
    one(to, "511 bytes, holder", 7, 4, 1234, 5, 7, 511)?;
    one(to, "1023 bytes, holder", 7, 2, 1234, 5, 7, 1023)?;
    one(to, "no bytes, holder", 7, 2, 1234, 5, 7, 0)
}

fn ranges(to: &mut impl Write) -> io::Result<()> {
    one(to, "deal 32748, holder", 32748, 4, 1234, 5, 7, 512)?;
    one(to, "deal 32749, holder", 32749, 4, 1234, 5, 7, 512)?;
    one(to, "deal 0, holder", 0, 4, 1234, 5, 7, 512)?;
    one(to, "holder", 7, 0, 1234, 5, 7, 512)?;
    one(to, "holder", 7, 5, 1234, 5, 7, 512)?;
    one(to, "secret 32749, holder", 7, 4, 32749, 5, 7, 512)?;
    one(to, "coefficient 32749, holder", 7, 4, 1234, 5, 32749, 512)?;
    one(to, "all wrong, holder", 0, 5, 32749, 32749, 32749, 0)?;
    one(
        to,
        "all wrong but the deal, holder",
        7,
        5,
        32749,
        32749,
        32749,
        0,
    )?;
    one(
        to,
        "secret, randomness and room wrong, holder",
        7,
        4,
        32749,
        32749,
        32749,
        0,
    )?;
    one(
        to,
        "randomness and room wrong, holder",
        7,
        4,
        1234,
        32749,
        32749,
        0,
    )
}

fn main(rt: HostRuntime) -> io::Result<()> {
    let mut to = rt.stdout();
    holders(&mut to)?;
    cards(&mut to)?;
    ranges(&mut to)?;
    years::years(&mut to)?;
    lengths(&mut to)?;
    policies(&mut to)?;
    bad_policies(&mut to)?;
    eight::cards(&mut to)
}
