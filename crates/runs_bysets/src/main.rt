// Deals by the required sets: P1's policy to every holder, the example of source 003, any four and all of eight people, and inputs that give each
// refusal; prints what comes out, which is compared with `stdout`.
#![tactic(auto)]

mod large;
mod refusals;
mod show;

use dealing::Deal;
use planning::Policy;
use std::io;
use std::io::Write;

// P1's policy.
pub const P1: Policy = Policy {
    people: 4,
    required: &[3, 6, 12],
    forbidden: &[9],
};

// Deals one card by the sets into the first `room` of 18000 bytes, all of them 9, and prints the answer under its name.
pub fn case(
    to: &mut impl Write,
    name: &str,
    deal: Deal,
    holder: usize,
    room: usize,
) -> io::Result<()> {
    let mut out = [9u8; 18000];
    if room <= 18000 {
        write!(to, "{name} {holder}:")?;
        let answer = bysets::deal_by_sets(deal, holder, &mut out[..room]);
        show::show(to, answer, &out)?;
    }
    Ok(())
}

// P1's policy, one secret word, a coefficient for each of its three sets.
fn four(to: &mut impl Write) -> io::Result<()> {
    let deal = Deal {
        policy: P1,
        number: 7,
        year: 0,
        secret: &[1234],
        random: &[5, 7, 9],
    };
    for holder in 1..5 {
        case(to, "P1 by sets, holder", deal, holder, 1024)?;
    }
    Ok(())
}

// The same sets out of a list with a repeat, with a set around another, and not rising.
fn again(to: &mut impl Write) -> io::Result<()> {
    let policy = Policy {
        people: 4,
        required: &[12, 7, 3, 6, 3, 15],
        forbidden: &[9],
    };
    let deal = Deal {
        policy,
        number: 7,
        year: 2026,
        secret: &[1234],
        random: &[5, 7, 9],
    };
    for holder in 1..5 {
        case(
            to,
            "other lists of the same sets, holder",
            deal,
            holder,
            1024,
        )?;
    }
    Ok(())
}

// Two words: the first set's two coefficients, then the second's, then the third's.
fn two_words(to: &mut impl Write) -> io::Result<()> {
    let policy = Policy {
        people: 4,
        required: &[3, 6, 12],
        forbidden: &[],
    };
    let deal = Deal {
        policy,
        number: 7,
        year: 0,
        secret: &[1234, 32748],
        random: &[1, 2, 3, 4, 5, 6],
    };
    for holder in 1..4 {
        case(to, "two words, holder", deal, holder, 1024)?;
    }
    Ok(())
}

// Source 003's example: six people, six sets of five and four members.
fn six(to: &mut impl Write) -> io::Result<()> {
    let policy = Policy {
        people: 6,
        required: &[31, 47, 51, 54, 58, 60],
        forbidden: &[],
    };
    let deal = Deal {
        policy,
        number: 7,
        year: 1,
        secret: &[1000],
        random: &[
            1, 2, 3, 4, 5, 6, 7, 8, 9, 10, 11, 12, 13, 14, 15, 16, 17, 18, 19, 20,
        ],
    };
    for holder in 1..7 {
        case(to, "003's example, holder", deal, holder, 2560)?;
    }
    Ok(())
}

// A holder in no set has a card of no bytes.
fn nothing(to: &mut impl Write) -> io::Result<()> {
    let policy = Policy {
        people: 3,
        required: &[3],
        forbidden: &[],
    };
    let deal = Deal {
        policy,
        number: 7,
        year: 0,
        secret: &[1],
        random: &[1],
    };
    case(to, "in no set, no bytes, holder", deal, 3, 0)
}

fn main(rt: HostRuntime) -> io::Result<()> {
    let mut to = rt.stdout();
    four(&mut to)?;
    again(&mut to)?;
    two_words(&mut to)?;
    six(&mut to)?;
    nothing(&mut to)?;
    large::cards(&mut to)?;
    refusals::refusals(&mut to)
}
