// A deal to eight people of whom any five open, 16 words: its largest cards.
use crate::case;
use dealing::Deal;
use planning::Policy;
use std::io;
use std::io::Write;

// Randomness for 16 words and 70 pieces.
fn many() -> [u16; 1104] {
    let mut words = [0u16; 1104];
    for i in 0..1104 {
        words[i] = ((i * 7919 + 13) % 32749) as u16;
    }
    words
}

// The sets of five of eight people.
fn fives() -> [u16; 56] {
    let mut sets = [0u16; 56];
    let groups = (0..256u16).filter(|&g| u16::count_ones(g) == 5);
    for (set, g) in sets.iter_mut().zip(groups) {
        *set = g;
    }
    sets
}

// Any five of eight people, 16 words.
fn card(to: &mut impl Write, name: &str, holder: usize, room: usize) -> io::Result<()> {
    let policy = Policy {
        people: 8,
        required: &fives(),
        forbidden: &[],
    };
    let deal = Deal {
        policy,
        number: 32748,
        year: 0,
        secret: &[
            1, 2, 3, 5, 8, 13, 21, 34, 32748, 0, 999, 1000, 12345, 32000, 31, 16384,
        ],
        random: &many(),
    };
    case(to, name, deal, holder, room)
}

pub fn cards(to: &mut impl Write) -> io::Result<()> {
    card(to, "any five of eight, holder", 1, 17920)?;
    card(to, "any five of eight, holder", 8, 18000)?;
    card(to, "any five of eight, 17919 bytes, holder", 8, 17919)
}
