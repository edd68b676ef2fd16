// A holder's card by sets, block by block: the holder has one piece of each set that the holder is in.
ghost use Rattle.std.specs.Prelude.{◌≡◌, ◌≤◌, length};
ghost use Rattle.answer.specs.Outcome.{outcome};
ghost use Rattle.answer.specs.Lent.{left};
ghost use Rattle.dealing.specs.Deal.{asked_of};
ghost use Rattle.dealing.specs.Given.{deal_in};
ghost use Rattle.dealing.specs.Inner.{room_says};
ghost use Rattle.minimal.specs.Minimal.{sets_with};
ghost use Rattle.bysets.specs.Cards.{card_by};
ghost use Rattle.bysets.specs.Inner.{SetsReady};

use answer::{Answer, Kind};
use block::Label;
use dealing::Deal;

// How many of the sets have the holder.
fn held_count(sets: &[u16], holder: usize) -> usize
    requires { (1 ≤ holder) × (holder ≤ 8) }
    ensures { result ≡ length (sets_with sets.now holder (length sets.now)) }
{
    sets.iter()
        .filter(|set| minimal::has(**set, holder))
        .count()
}

// Refusal 12, or the holder's card, written over the front of what is lent, and how many blocks it has.
// It is dealing's write_card over sets in the place of rows. A function for both would take three closures: who has a piece, its label, its randomness.
pub fn write_card(deal: Deal, holder: usize, sets: &[u16], out: &mut [u8]) -> Answer
    requires { let d = deal_in deal in
        SetsReady (asked_of d holder) sets.now d.secret d.random }
    ensures says { let held = sets_with sets.now holder (length sets.now) in
        outcome result ≡ room_says (length held) (length out.old) }
    ensures leaves { let d = deal_in deal.entry in
        let card = card_by (asked_of d holder) sets.now d.secret d.random in
        out.new ≡ left (outcome result) card out.old }
{
    let blocks = held_count(sets, holder);
    if out.len() < 512 * blocks {
        return answer::refuse(Kind::Room, blocks, 0);
    }
    let shared = dealing::shared_label(deal, holder);
    let mut at = 0;
    let mut used = 0;
    for (i, &set) in sets.iter().enumerate() {
        let pieces = minimal::members(set, 16);
        let end = used + deal.secret.len() * (pieces - 1);
        if minimal::has(set, holder) {
            let piece = minimal::members(set, holder);
            let label = Label {
                mark: 1988,
                pieces: pieces as u16,
                piece: piece as u16,
                set: i as u16 + 1,
                ..shared
            };
            dealing::write_piece(label, deal.secret, &deal.random[used..end], out, at);
            at += 512;
        }
        used = end;
    }
    Ok(blocks)
}
