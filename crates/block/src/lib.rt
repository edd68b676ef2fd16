// The card block (SCOPE 4): 512 bytes, read as 256 words of two bytes, the high byte in front.
// The definitions that the contracts cite are in specs/, in SCOPE's terms and order.
#![tactic(auto)]

mod deal;
mod reading;
mod writing;

ghost use Rattle.std.specs.Prelude.{◌≡◌, ◌+◌, ◌-◌, ◌*◌, ◌≤◌, length};
ghost use Rattle.block.specs.Words.{word_at};

pub use deal::{DealWords, deal_words, piece_of, same_deal};
pub use reading::{check_block, check_one, check_slots, first_wrong, open, values};
pub use writing::{put_word, write_at, write_block};

// Words 1 to 7 of a block.
#[derive(Clone, Copy, PartialEq, Eq)]
pub struct Words {
    pub mark: u16,
    pub deal: u16,
    pub holder: u16,
    pub people: u16,
    pub pieces: u16,
    pub width: u16,
    pub piece: u16,
}

// What a block is written from, beside the values of its piece: words 1 to 7, 24 and 25.
#[derive(Clone, Copy)]
pub struct Label {
    pub mark: u16,
    pub number: u16,
    pub holder: u16,
    pub people: u16,
    pub pieces: u16,
    pub width: u16,
    pub piece: u16,
    pub year: u16,
    pub set: u16,
}

// Word i of b.
pub fn word(b: &[u8], i: usize) -> u16
    requires { (1 ≤ i) × (2 * i ≤ length b.now) }
    ensures { result ≡ word_at b.now i }
{
    let at = 2 * (i - 1);
    u16::from_be_bytes([b[at], b[at + 1]])
}

// One step of a check: the one place where a word enters a sum. No word above 32748 gets there. Each word adds at most
// 255 x 32748 = 8350740, so the sum of 255 words fits.
pub fn weigh(sum: u32, i: usize, v: u16) -> u32
    requires v_bound { v ≤ 32748 }
    requires le_i { (1 ≤ i) × (i ≤ 255) × (sum ≤ (i - 1) * 8350740) }
    ensures { (result ≡ sum + i * v) × (result ≤ i * 8350740) }
{
    sum + (i as u32) * (v as u32)
}
