// Where the pieces of a pile lie, and which of them are taken: those of the deal or, by sets, those of the lowest set that is complete.
ghost use Rattle.std.specs.Prelude.{◌≡◌, map, ◌≤◌, replicate};
ghost use Rattle.lists.specs.Run.{run};
ghost use Rattle.lists.specs.Places.{placed};
ghost use Rattle.pile.specs.Blocks.{blocks, In};
ghost use Rattle.joining.specs.Pile.{own_deal, piece_at, place_of, set_place, complete, chosen};
ghost use Rattle.joining.specs.Inner.{Unmixed, Full, own_places, said};

use block::DealWords;

// A pile of one deal, sorted: its deal, and the first block of each piece, that of piece j at j - 1, and 0 where it is missing. An option for each
// of the 560 would take twice the stack.
#[derive(Clone, Copy)]
pub struct Sorted<'a> {
    pub pile: &'a [u8],
    pub own: DealWords,
    pub places: &'a [u16; 560],
    ghost unmixed: { Unmixed pile.now },
    ghost few: { blocks pile.now ≤ 560 },
    ghost own_is: { own ≡ own_deal pile.now },
    ghost places_are: { places.now ≡ run (place_of pile.now) 1 560 },
}

// The piece of block a.
pub fn piece_at(pile: &[u8], a: usize) -> usize
    requires { In pile.now a }
    ensures { result ≡ piece_at pile.now a }
{
    block::piece_of(&pile[512 * (a - 1)..])
}

// The first block of each piece over a table of zeros: that of piece j at j - 1, and 0 where it is missing.
pub fn fill_places(pile: &[u8], table: &mut [u16; 560])
    requires unmixed { Unmixed pile.now }
    requires pile_bound { blocks pile.now ≤ 560 }
    requires table_value { table.old ≡ replicate 560 0 }
    ensures { table.new ≡ run (place_of pile.now) 1 560 }
{
    for a in 1..pile.len() / 512 + 1 {
        let at = piece_at(pile, a) - 1;
        if table[at] == 0 {
            table[at] = a as u16;
        }
    }
}

// How many pieces the first block of each set says: that of set s at s, the first scheme's at 0, and 0 where there is none. A byte holds it.
pub fn set_counts(pile: &[u8]) -> [u8; 71]
    requires { Unmixed pile.now }
    ensures { result ≡ map (said pile.now) (run (set_place pile.now) 0 71) }
{
    let mut table = [0u8; 71];
    for a in 1..pile.len() / 512 + 1 {
        let set = pile::word(pile, a, 25) as usize;
        if table[set] == 0 {
            table[set] = pile::word(pile, a, 5) as u8;
        }
    }
    table
}

// The first block of the set.
#[tactic(auto, unfolding(pile::specs::Blocks::blocks))]
pub fn set_place(pile: &[u8], set: usize) -> Option<usize>
    ensures { result ≡ placed (set_place pile.now set) }
{
    (1..pile.len() / 512 + 1).find(|a| pile::word(pile, *a, 25) as usize == set)
}

// The set is complete.
fn complete(sorted: &Sorted, set: usize) -> bool
    requires sets { sorted.now.own.mark ≡ 1988 }
    requires le_set { (1 ≤ set) × (set ≤ 70) }
    ensures { result ≡ complete sorted.now.pile.now set }
{
    let places = sorted.places;
    let before = 8 * (set - 1);
    let first = places[before] as usize;
    if first == 0 {
        return false;
    }
    let k = pile::word(sorted.pile, first, 5) as usize;
    places[before..before + k].iter().all(|&place| place != 0)
}

// The lowest set that is complete, of a deal by sets; in the first scheme none.
pub fn chosen(sorted: &Sorted) -> Option<usize>
    ensures { result ≡ placed (chosen sorted.now.pile.now) }
{
    if sorted.own.mark != 1988 {
        return None;
    }
    (1..71).find(|set| complete(sorted, *set))
}

// The places of the pieces that are taken of a pile that passed every check.
pub fn taken<'a>(sorted: &Sorted<'a>) -> &'a [u16]
    requires { Full sorted.now.pile.now }
    ensures { result.now ≡ own_places sorted.now.pile.now }
{
    let places = sorted.places;
    match chosen(sorted) {
        Some(set) => {
            let before = 8 * (set - 1);
            let pieces = pile::word(sorted.pile, places[before] as usize, 5) as usize;
            &places[before..before + pieces]
        }
        None => &places[..sorted.own.pieces as usize],
    }
}
