// The holders of each piece, as a set; how many pieces a group has by these sets; on which side a list fails for a group.
ghost use Rattle.std.specs.Prelude.{◌≡◌, ◌*◌, ◌≤◌, ◌<◌, ltb, length, position};
ghost use Rattle.holdings.specs.Holdings.{list_in};
ghost use Rattle.holdings.specs.Inner.{holders_of, Holders, have_by, way_in, side_of};

use crate::Holdings;

// A group for which a list fails has too few pieces, or enough that is not authorised.
#[derive(Clone, Copy)]
pub enum Side {
    Few,
    Many,
}

// The first mark above 1.
pub fn first_bad(marks: &[u8]) -> Option<usize>
    ensures { result ≡ position (ltb 1) marks.now }
{
    marks.iter().position(|&m| 1 < m)
}

// Who has piece j.
fn holder_set(list: Holdings, j: usize) -> u16
    requires { (list.people ≤ 8) × (list.pieces ≤ 70) × (1 ≤ j) × (j ≤ list.pieces) × (length list.marks.now ≡ list.people * list.pieces) }
    ensures { result ≡ holders_of (list_in list.entry) j }
{
    let mut set = 0u16;
    // what the next person is worth: doubled from one to the next, since a shift for each mark takes longer
    let mut worth = 1u16;
    for i in 0..list.people {
        if list.marks[i * list.pieces + (j - 1)] == 1 {
            set += worth;
        }
        worth *= 2;
    }
    set
}

// The holders of each piece.
pub fn holder_sets(list: Holdings) -> [u16; 70]
    requires { (list.people ≤ 8) × (list.pieces ≤ 70) × (length list.marks.now ≡ list.people * list.pieces) }
    ensures { Holders (list_in list.entry) list.entry.pieces result }
{
    let mut sets = [0u16; 70];
    for j in 0..list.pieces {
        sets[j] = holder_set(list, j + 1);
    }
    sets
}

// How many pieces the group g has: those whose holders it meets.
fn have(sets: &[u16; 70], pieces: usize, g: u16) -> usize
    requires { pieces ≤ 70 }
    ensures { result ≡ have_by sets.now pieces g }
{
    let mut count = 0;
    for j in 0..pieces {
        if sets[j] & g != 0 {
            count += 1;
        }
    }
    count
}

// On which side the list fails for the group g.
pub fn way(
    required: &[u16],
    sets: &[u16; 70],
    pieces: usize,
    needed: usize,
    g: usize,
) -> Option<Side>
    requires { (pieces ≤ 70) × (g < 256) }
    ensures { result ≡ side_of (way_in required.now sets.now pieces needed g) }
{
    let count = have(sets, pieces, g as u16);
    if planning::authorised(required, g as u16) {
        if count < needed {
            Some(Side::Few)
        } else {
            None
        }
    } else if count < needed {
        None
    } else {
        Some(Side::Many)
    }
}
