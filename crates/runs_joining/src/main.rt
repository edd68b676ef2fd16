// What joining answers where the joining program cannot ask: an output with too little room, and piles past 560 blocks; and of piles of several
// deals, or of a deal by sets; with the lent words afterwards; by the first joiner, by differences, and by stored weights. Compared with `stdout`.
#![tactic(auto)]

mod sets;

use answer::{Answer, Refusal};
use dealing::Deal;
use planning::Policy;
use sets::by_sets;
use std::io;
use std::io::Write;

fn number(to: &mut impl Write, n: usize) -> io::Result<()> {
    write!(to, " {n}")
}

fn show_words(to: &mut impl Write, words: &[u16]) -> io::Result<()> {
    for &word in words {
        number(to, word as usize)?;
    }
    Ok(())
}

fn refused(to: &mut impl Write, r: Refusal) -> io::Result<()> {
    to.write_all(b" refused")?;
    number(to, usize::from(r.kind))?;
    number(to, r.a)?;
    number(to, r.b)
}

// The three joiners.
#[derive(Clone, Copy)]
pub enum Joiner {
    Inverse,
    Differences,
    Weights,
}

impl Joiner {
    fn join(self, pile: &[u8], out: &mut [u16]) -> Answer {
        match self {
            Joiner::Inverse => joining::join(pile, out),
            Joiner::Differences => joining::join_by_differences(pile, out),
            Joiner::Weights => joining::join_by_weights(pile, out),
        }
    }
}

// Joins the pile, and prints the answer and the lent words under the case's name.
fn case(
    to: &mut impl Write,
    joiner: Joiner,
    name: &[u8],
    pile: &[u8],
    out: &mut [u16],
) -> io::Result<()> {
    to.write_all(name)?;
    match joiner.join(pile, out) {
        Ok(w) => {
            to.write_all(b" words")?;
            number(to, w)?;
        }
        Err(r) => refused(to, r)?,
    }
    to.write_all(b", lent")?;
    show_words(to, out)?;
    to.write_all(b"\n")
}

// A holder's card of a deal of the secret 1234, 5678 to two people, under this number and year, into what is lent from byte `at` on: one block.
fn card(deal: usize, year: usize, holder: usize, out: &mut [u8], at: usize) {
    let policy = Policy {
        people: 2,
        required: &[3],
        forbidden: &[],
    };
    let deal = Deal {
        policy,
        number: deal,
        year,
        secret: &[1234, 5678],
        random: &[5, 7],
    };
    if at <= out.len() {
        let _dealt = dealing::deal(deal, holder, &mut out[at..]);
    }
}

// Both cards of that deal, with less and with more room than the secret needs.
fn rooms(to: &mut impl Write, joiner: Joiner) -> io::Result<()> {
    let mut cards = [0u8; 1024];
    card(7, 0, 1, &mut cards, 0);
    card(7, 0, 2, &mut cards, 512);
    let mut no_words = [0u16; 0];
    let mut one = [9u16];
    let mut two = [9u16, 9];
    let mut three = [9u16, 9, 9];
    case(to, joiner, b"no room:", &cards, &mut no_words)?;
    case(to, joiner, b"room for 1:", &cards, &mut one)?;
    case(to, joiner, b"room for 2:", &cards, &mut two)?;
    case(to, joiner, b"room for 3:", &cards, &mut three)
}

// The first n bytes as a pile.
pub fn front(
    to: &mut impl Write,
    joiner: Joiner,
    name: &[u8],
    b: &[u8],
    n: usize,
    out: &mut [u16],
) -> io::Result<()> {
    if n <= b.len() {
        case(to, joiner, name, &b[..n], out)?;
    }
    Ok(())
}

// Blocks of zeros, which no card has: none, 560, one more, and a byte past that.
fn piles(to: &mut impl Write, joiner: Joiner) -> io::Result<()> {
    let zeros = [0u8; 287233];
    let mut words = [9u16; 2];
    front(to, joiner, b"no blocks:", &zeros, 0, &mut words)?;
    front(to, joiner, b"560 blocks:", &zeros, 286720, &mut words)?;
    front(to, joiner, b"561 blocks:", &zeros, 287232, &mut words)?;
    front(
        to,
        joiner,
        b"561 blocks and a byte:",
        &zeros,
        287233,
        &mut words,
    )
}

// Four blocks of the deals of these numbers, of both holders in turns, as a pile.
fn deals(to: &mut impl Write, joiner: Joiner, name: &[u8], numbers: [usize; 4]) -> io::Result<()> {
    let mut cards = [0u8; 2048];
    for (a, &number) in numbers.iter().enumerate() {
        card(number, 0, a % 2 + 1, &mut cards, 512 * a);
    }
    let mut words = [9u16; 2];
    case(to, joiner, name, &cards, &mut words)
}

// An old card, of deal 6, among three of deal 7.
fn old_cards(to: &mut impl Write, joiner: Joiner) -> io::Result<()> {
    deals(to, joiner, b"an old card on top:", [6, 7, 7, 7])?;
    deals(to, joiner, b"an old card, second:", [7, 6, 7, 7])?;
    deals(to, joiner, b"an old card in the middle:", [7, 7, 6, 7])?;
    deals(to, joiner, b"an old card at the end:", [7, 7, 7, 6])
}

// Two heaps that are equal.
fn equal_heaps(to: &mut impl Write, joiner: Joiner) -> io::Result<()> {
    deals(to, joiner, b"equal heaps, the new first:", [7, 7, 6, 6])?;
    deals(to, joiner, b"equal heaps, the old first:", [6, 6, 7, 7])?;
    deals(to, joiner, b"equal heaps in turns:", [7, 6, 7, 6])?;
    deals(to, joiner, b"equal heaps, one around:", [6, 7, 7, 6])
}

// More heaps than two, and one.
fn other_heaps(to: &mut impl Write, joiner: Joiner) -> io::Result<()> {
    deals(to, joiner, b"three heaps, two old on top:", [5, 6, 7, 7])?;
    deals(to, joiner, b"three heaps, an old on top:", [6, 7, 7, 5])?;
    deals(to, joiner, b"three heaps, the new first:", [7, 5, 6, 7])?;
    deals(to, joiner, b"every block another deal:", [5, 6, 7, 8])?;
    deals(to, joiner, b"one deal:", [7, 7, 7, 7])
}

// Both cards of one number, of one year and of two.
fn years(to: &mut impl Write, joiner: Joiner, name: &[u8], years: [usize; 2]) -> io::Result<()> {
    let mut cards = [0u8; 1024];
    card(7, years[0], 1, &mut cards, 0);
    card(7, years[1], 2, &mut cards, 512);
    let mut words = [9u16; 2];
    case(to, joiner, name, &cards, &mut words)
}

// All of it, by one of the joiners.
fn cases(to: &mut impl Write, joiner: Joiner) -> io::Result<()> {
    rooms(to, joiner)?;
    piles(to, joiner)?;
    old_cards(to, joiner)?;
    equal_heaps(to, joiner)?;
    other_heaps(to, joiner)?;
    years(to, joiner, b"one year:", [2026, 2026])?;
    years(to, joiner, b"two years:", [2026, 2025])?;
    years(to, joiner, b"a card made earlier:", [2026, 0])?;
    by_sets(to, joiner)
}

fn main(rt: HostRuntime) -> io::Result<()> {
    let mut to = rt.stdout();
    cases(&mut to, Joiner::Inverse)?;
    to.write_all(b"by differences\n")?;
    cases(&mut to, Joiner::Differences)?;
    to.write_all(b"by stored weights\n")?;
    cases(&mut to, Joiner::Weights)
}
