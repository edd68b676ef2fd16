// Every refusal, and which comes first.
use crate::{P1, case};
use dealing::Deal;
use planning::Policy;
use std::io;
use std::io::Write;

// P1's policy with this number, year and holder, and one secret word d with three coefficients, c last.
fn one(
    to: &mut impl Write,
    name: &str,
    number: usize,
    year: usize,
    holder: usize,
    d: u16,
    c: u16,
    room: usize,
) -> io::Result<()> {
    let deal = Deal {
        policy: P1,
        number,
        year,
        secret: &[d],
        random: &[5, 7, c],
    };
    case(to, name, deal, holder, room)
}

// P1's required sets with other secrets and other randomness.
fn lengths<'a>(
    to: &mut impl Write,
    name: &str,
    secret: &'a [u16],
    random: &'a [u16],
) -> io::Result<()> {
    let policy = Policy {
        people: 4,
        required: &[3, 6, 12],
        forbidden: &[],
    };
    let deal = Deal {
        policy,
        number: 7,
        year: 0,
        secret,
        random,
    };
    case(to, name, deal, 1, 1024)
}

// A policy that planning refuses, with all else right but the randomness.
fn bad<'a>(
    to: &mut impl Write,
    name: &str,
    people: usize,
    required: &'a [u16],
    forbidden: &'a [u16],
) -> io::Result<()> {
    let policy = Policy {
        people,
        required,
        forbidden,
    };
    let deal = Deal {
        policy,
        number: 7,
        year: 0,
        secret: &[1],
        random: &[],
    };
    case(to, name, deal, 1, 512)
}

// Refusals 1 to 6 and 22, as planning gives them.
fn policies(to: &mut impl Write) -> io::Result<()> {
    let stranger = [1u16, 3, 4];
    let long = [1u16; 257];
    bad(to, "no people, holder", 0, &[1], &[])?;
    bad(to, "nine people, holder", 9, &[1], &[])?;
    bad(to, "257 required sets, holder", 2, &long, &[])?;
    bad(to, "257 forbidden sets, holder", 2, &[1], &long)?;
    bad(to, "a stranger, holder", 2, &stranger, &[])?;
    bad(to, "a forbidden stranger, holder", 2, &[1], &stranger)?;
    bad(to, "no required set, holder", 2, &[], &[1])?;
    bad(to, "an empty required set, holder", 2, &[1, 0], &[])?;
    bad(to, "a required set of one, holder", 2, &[3, 2, 1], &[])?;
    bad(to, "clash, holder", 2, &[3], &[3])
}

// Secrets and randomness of other lengths: P1's three sets want a coefficient each for each word.
fn words(to: &mut impl Write) -> io::Result<()> {
    lengths(to, "no secret, holder", &[], &[])?;
    lengths(to, "17 words, holder", &[1; 17], &[1; 51])?;
    lengths(to, "second word 32749, holder", &[1, 32749], &[])?;
    lengths(to, "no randomness, holder", &[1], &[])?;
    lengths(to, "two coefficients for three, holder", &[1], &[1, 2])?;
    lengths(
        to,
        "four coefficients for three, holder",
        &[1],
        &[1, 2, 3, 4],
    )?;
    lengths(
        to,
        "three coefficients for six, holder",
        &[1, 2],
        &[1, 2, 3],
    )
}

pub fn refusals(to: &mut impl Write) -> io::Result<()> {
    one(to, "deal 0, holder", 0, 0, 1, 1234, 9, 512)?;
    one(
        to,
        "deal 32748, year 32748, holder",
        32748,
        32748,
        1,
        1234,
        9,
        512,
    )?;
    one(to, "deal 32749, holder", 32749, 0, 1, 1234, 9, 512)?;
    one(to, "year 32749, holder", 7, 32749, 1, 1234, 9, 512)?;
    one(to, "holder", 7, 0, 0, 1234, 9, 512)?;
    one(to, "holder", 7, 0, 5, 1234, 9, 512)?;
    one(to, "secret 32749, holder", 7, 0, 1, 32749, 9, 512)?;
    one(
        to,
        "third coefficient 32749, holder",
        7,
        0,
        1,
        1234,
        32749,
        512,
    )?;
    one(to, "511 bytes, holder", 7, 0, 1, 1234, 9, 511)?;
    one(to, "1023 bytes, holder", 7, 0, 2, 1234, 9, 1023)?;
    one(to, "all wrong, holder", 0, 32749, 5, 32749, 32749, 0)?;
    one(
        to,
        "all wrong but the deal, holder",
        7,
        32749,
        5,
        32749,
        32749,
        0,
    )?;
    one(
        to,
        "all wrong from the holder on, holder",
        7,
        0,
        5,
        32749,
        32749,
        0,
    )?;
    one(
        to,
        "all wrong from the secret on, holder",
        7,
        0,
        1,
        32749,
        32749,
        0,
    )?;
    one(
        to,
        "randomness and room wrong, holder",
        7,
        0,
        1,
        1234,
        32749,
        0,
    )?;
    words(to)?;
    policies(to)
}
