// The checks of a pile in their order: TORN, LONG, those of its blocks, MIXED, CONFLICT and SHORT; and, for whatever it is joined into, ROOM.
ghost use Rattle.std.specs.Prelude.{◌≡◌, IfOk, [], ◌∷◌, map, count_by, ◌≤◌, length, take, replicate};
ghost use Rattle.lists.specs.Run.{run};
ghost use Rattle.answer.specs.Outcome.{outcome, checked, done};
ghost use Rattle.answer.specs.Checks.{first_fail};
ghost use Rattle.lists.specs.Places.{found, placed};
ghost use Rattle.pile.specs.Blocks.{blocks, In, TrueBlocks};
ghost use Rattle.joining.specs.Pile.{place_of, set_place, differ_in};
ghost use Rattle.joining.specs.Checks.{conflict, short, whole_lines, pile_lines};
ghost use Rattle.joining.specs.Joined.{joining};
ghost use Rattle.joining.specs.Inner.{said, unlike};

use crate::heaps::{mixed_at, own_deal};
use crate::places::{Sorted, chosen, fill_places, piece_at, set_counts, set_place};
use answer::{Answer, Checked, Kind};

// Some value of block a is another than that of block b.
fn differ(sorted: &Sorted, a: usize, b: usize) -> bool
    requires { In sorted.now.pile.now a × In sorted.now.pile.now b }
    ensures { result ≡ found (differ_in sorted.now.pile.now a b) }
{
    // no `any`: that each word it would read lies in its block rests on the deal's width, and did not close there
    for i in 1..sorted.own.width as usize + 1 {
        if pile::word(sorted.pile, a, 7 + i) != pile::word(sorted.pile, b, 7 + i) {
            return true;
        }
    }
    false
}

// The block that block a is unlike: the first of its set, where that one says another number of pieces, else the first of its piece, where its
// values are others.
fn unlike(sorted: &Sorted, counts: &[u8; 71], a: usize) -> Option<usize>
    requires in_pile { In sorted.now.pile.now a }
    requires counts_value { counts.now ≡ map (said sorted.now.pile.now) (run (set_place sorted.now.pile.now) 0 71) }
    ensures { result ≡ placed (unlike sorted.now.pile.now a) }
{
    let set = pile::word(sorted.pile, a, 25) as usize;
    if counts[set] as u16 != pile::word(sorted.pile, a, 5) {
        return set_place(sorted.pile, set);
    }
    let first = sorted.places[piece_at(sorted.pile, a) - 1] as usize;
    if differ(sorted, a, first) {
        return Some(first);
    }
    None
}

// Each block against the first block of its set and the first block of its piece: that settles CONFLICT over all pairs.
fn check_conflict(sorted: &Sorted) -> Checked
    ensures { checked result ≡ first_fail (conflict sorted.now.pile.now ∷ []) (done 0) }
{
    let counts = set_counts(sorted.pile);
    for a in 1..sorted.pile.len() / 512 + 1 {
        if let Some(first) = unlike(sorted, &counts, a) {
            return answer::refuse(Kind::Conflict, a, first);
        }
    }
    Ok(())
}

// How many of the pieces 1 to k are present.
fn count_present(places: &[u16; 560], k: usize) -> usize
    requires { k ≤ 70 }
    ensures { result ≡ count_by found (take k places.now) }
{
    places[..k].iter().filter(|&&place| place != 0).count()
}

// SHORT, by the scheme of the pile's own deal.
fn check_short(sorted: &Sorted) -> Checked
    ensures { checked result ≡ first_fail (short sorted.now.pile.now ∷ []) (done 0) }
{
    if sorted.own.mark == 1988 {
        return match chosen(sorted) {
            Some(_) => Ok(()),
            None => answer::refuse(Kind::Short, 0, 0),
        };
    }
    let k = sorted.own.pieces as usize;
    let here = count_present(sorted.places, k);
    if here < k {
        return answer::refuse(Kind::Short, here, k);
    }
    Ok(())
}

// MIXED, CONFLICT and SHORT of a pile of true blocks, one at least; where it passes, the table has the places of its pieces.
fn check_whole(pile: &[u8], table: &mut [u16; 560]) -> Checked
    requires bound { (1 ≤ blocks pile.now) × (blocks pile.now ≤ 560) }
    requires true_blocks { TrueBlocks pile.now }
    requires table_value { table.old ≡ replicate 560 0 }
    ensures says { checked result ≡ first_fail (whole_lines pile.now) (done 0) }
    ensures table { IfOk result (λ _. table.new ≡ run (place_of pile.now) 1 560) }
{
    if let Some(other) = mixed_at(pile) {
        return answer::refuse(Kind::Mixed, other, 0);
    }
    fill_places(pile, table);
    let own = own_deal(pile);
    let sorted = Sorted {
        pile,
        own,
        places: table,
    };
    check_conflict(&sorted)?;
    check_short(&sorted)
}

// All checks of a pile, over a table of zeros, which has the places of its pieces where they pass. Without a block it is SHORT with 0 and 0.
fn check_pile(pile: &[u8], table: &mut [u16; 560]) -> Checked
    requires { table.old ≡ replicate 560 0 }
    ensures says { checked result ≡ first_fail (pile_lines pile.now) (done 0) }
    ensures table { IfOk result (λ _. table.new ≡ run (place_of pile.now) 1 560) }
{
    if pile.len() % 512 != 0 {
        return answer::refuse(Kind::Torn, 0, 0);
    }
    if 560 < pile.len() / 512 {
        return answer::refuse(Kind::Long, 0, 0);
    }
    pile::check_blocks(pile)?;
    if pile.len() == 0 {
        return answer::refuse(Kind::Short, 0, 0);
    }
    check_whole(pile, table)
}

// The answer of joining a pile into an output of so many words: the checks of the pile, then ROOM, else how many words there are. The table is as
// after the checks of the pile.
pub fn check_join(pile: &[u8], room: usize, table: &mut [u16; 560]) -> Answer
    requires { table.old ≡ replicate 560 0 }
    ensures says { outcome result ≡ joining pile.now room }
    ensures table { IfOk result (λ _. table.new ≡ run (place_of pile.now) 1 560) }
{
    check_pile(pile, table)?;
    let own = own_deal(pile);
    let words = own.width as usize;
    if room < words {
        return answer::refuse(Kind::Room, words, 0);
    }
    Ok(words)
}
