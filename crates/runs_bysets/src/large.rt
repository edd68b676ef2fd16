// Deals to eight people, of whom any four open, 16 words: 70 sets, and the largest cards; and of whom all must come.
use crate::case;
use dealing::Deal;
use planning::Policy;
use std::io;
use std::io::Write;

// Randomness for 16 words and 70 sets of four.
fn many() -> [u16; 3360] {
    let mut words = [0u16; 3360];
    for i in 0..3360 {
        words[i] = ((i * 7919 + 13) % 32749) as u16;
    }
    words
}

// The sets of four of eight people.
fn fours() -> [u16; 70] {
    let mut sets = [0u16; 70];
    let groups = (0..256u16).filter(|&g| u16::count_ones(g) == 4);
    for (set, g) in sets.iter_mut().zip(groups) {
        *set = g;
    }
    sets
}

// Any four of eight people, 16 words.
fn any_four(to: &mut impl Write, name: &str, holder: usize, room: usize) -> io::Result<()> {
    let policy = Policy {
        people: 8,
        required: &fours(),
        forbidden: &[],
    };
    let deal = Deal {
        policy,
        number: 7,
        year: 32748,
        secret: &[
            1, 2, 3, 5, 8, 13, 21, 34, 32748, 0, 999, 1000, 12345, 32000, 31, 16384,
        ],
        random: &many(),
    };
    case(to, name, deal, holder, room)
}

// All eight people.
fn all_eight(to: &mut impl Write, name: &str, holder: usize) -> io::Result<()> {
    let policy = Policy {
        people: 8,
        required: &[255],
        forbidden: &[],
    };
    let deal = Deal {
        policy,
        number: 7,
        year: 0,
        secret: &[12345],
        random: &[1, 32748, 3, 4, 32000, 6, 7],
    };
    case(to, name, deal, holder, 512)
}

pub fn cards(to: &mut impl Write) -> io::Result<()> {
    any_four(to, "any four of eight, holder", 1, 17920)?;
    any_four(to, "any four of eight, holder", 8, 18000)?;
    any_four(to, "any four of eight, 17919 bytes, holder", 8, 17919)?;
    all_eight(to, "all eight, holder", 1)?;
    all_eight(to, "all eight, holder", 8)
}
