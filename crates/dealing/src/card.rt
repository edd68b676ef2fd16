// A holder's card, block by block, from the table of rows: the holder has a piece whose row does not mark the holder.
ghost use Rattle.std.specs.Prelude.{◌≡◌, ◌++◌, ◌+◌, ◌-◌, ◌*◌, ◌≤◌, length, take, drop};
ghost use Rattle.answer.specs.Outcome.{outcome};
ghost use Rattle.lists.specs.Over.{over};
ghost use Rattle.answer.specs.Lent.{left};
ghost use Rattle.field.specs.Pieces.{values};
ghost use Rattle.block.specs.Written.{block_bytes};
ghost use Rattle.dealing.specs.Deal.{asked_of, card_over};
ghost use Rattle.dealing.specs.Given.{deal_in};
ghost use Rattle.dealing.specs.Inner.{Ready, Writable, held_in, room_says};

use crate::{Deal, shared_label};
use answer::{Answer, Kind};
use block::Label;
use planning::Rows;

// How many of the first k rows do not mark the holder.
fn held_count(rows: &Rows, k: usize, holder: usize) -> usize
    requires { (k ≤ 70) × (1 ≤ holder) × (holder ≤ 8) }
    ensures { result ≡ length (held_in rows.now holder k) }
{
    rows[..k].iter().filter(|row| !row[holder - 1]).count()
}

// Writes the block with this label from byte `at` on, with the values of the label's piece; the rest stays.
pub fn write_piece(label: Label, secret: &[u16], random: &[u16], out: &mut [u8], at: usize)
    requires at_in_bounds { at + 512 ≤ length out.old }
    requires writable { Writable label secret.now random.now }
    ensures { let block = block_bytes label (values (label.pieces - 1) secret.now random.now label.piece) in
        out.new ≡ take at out.old ++ over block (drop at out.old) }
{
    let made = field::values_of(secret, random, label.pieces as usize - 1, label.piece);
    block::write_at(out, at, label, &made[..secret.len()]);
}

// Refusal 12, or the holder's card, written over the front of what is lent, and how many blocks it has.
pub fn write_card(deal: Deal, holder: usize, k: usize, rows: &Rows, out: &mut [u8]) -> Answer
    requires { let d = deal_in deal in
        Ready (asked_of d holder) k d.secret d.random }
    ensures says { outcome result ≡ room_says (length (held_in rows.now holder k)) (length out.old) }
    ensures leaves { let d = deal_in deal.entry in
        let card = card_over (asked_of d holder) k d.secret d.random (held_in rows.now holder k) in
        out.new ≡ left (outcome result) card out.old }
{
    let blocks = held_count(rows, k, holder);
    if out.len() < 512 * blocks {
        return answer::refuse(Kind::Room, blocks, 0);
    }
    let shared = shared_label(deal, holder);
    let mut at = 0;
    for row in 0..k {
        if !rows[row][holder - 1] {
            let label = Label {
                mark: 1987,
                pieces: k as u16,
                piece: row as u16 + 1,
                ..shared
            };
            write_piece(label, deal.secret, deal.random, out, at);
            at += 512;
        }
    }
    Ok(blocks)
}
