// The words of the clients: which are bad, whose are whose, and those of a block.
ghost use Rattle.std.specs.Prelude.{◌≡◌, not, ◌≤◌, length};
ghost use Rattle.lists.specs.Places.{outside, placed};
ghost use Rattle.desk.specs.Opens.{no_words, bad_word, accepted, is_client, other, words_in, opening_of};
ghost use Rattle.desk.specs.Parts.{put};

use crate::{Clients, Opening};

// No words: all 0.
pub fn none() -> Opening
    ensures { result ≡ no_words }
{
    Opening {
        deal: 0,
        people: 0,
        pieces: 0,
        width: 0,
        year: 0,
    }
}

// 0, or above high.
fn outside(high: usize, v: usize) -> bool
    ensures { result ≡ outside high v }
{
    v == 0 || high < v
}

// The first of the five words that no true block has, if there is one.
pub fn bad_word(o: Opening) -> Option<usize>
    ensures { result ≡ placed (bad_word o) }
{
    if outside(32748, o.deal) {
        Some(2)
    } else if outside(8, o.people) {
        Some(4)
    } else if outside(70, o.pieces) {
        Some(5)
    } else if outside(16, o.width) {
        Some(6)
    } else if 32748 < o.year {
        Some(24)
    } else {
        None
    }
}

// An opening would take these words.
pub fn accepted(o: Opening) -> bool
    ensures { result ≡ accepted o }
{
    bad_word(o).is_none()
}

// Neither client 1 nor client 2.
pub fn no_client(client: usize) -> bool
    ensures { result ≡ not (is_client client) }
{
    client != 1 && client != 2
}

// The other client.
pub fn other(client: usize) -> usize
    ensures { result ≡ other client }
{
    if client == 1 { 2 } else { 1 }
}

// The words of the client.
pub fn words_of(both: &Clients, client: usize) -> Opening
    ensures { result ≡ words_in both.now client }
{
    if client == 1 { both.one } else { both.two }
}

// The words of the client are replaced.
pub fn put(both: &mut Clients, client: usize, new: Opening)
    ensures { both.new ≡ put both.old client new }
{
    if client == 1 {
        both.one = new;
    } else {
        both.two = new;
    }
}

// Words 2, 4, 5, 6 and 24 of a block.
pub fn opening_of(block: &[u8]) -> Opening
    requires { 512 ≤ length block.now }
    ensures { result ≡ opening_of block.now }
{
    let deal = block::word(block, 2) as usize;
    let people = block::word(block, 4) as usize;
    let pieces = block::word(block, 5) as usize;
    let width = block::word(block, 6) as usize;
    let year = block::word(block, 24) as usize;
    Opening {
        deal,
        people,
        pieces,
        width,
        year,
    }
}
