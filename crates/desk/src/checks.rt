// The refusals of each call in their order.
ghost use Rattle.std.specs.Prelude.{◌≡◌, ◌≤◌};
ghost use Rattle.answer.specs.Outcome.{checked, done};
ghost use Rattle.answer.specs.Checks.{first_fail};
ghost use Rattle.desk.specs.Opens.{other, words_in, reserved};
ghost use Rattle.desk.specs.Lines.{open_lines, front_lines, hand_lines, ask_lines, close_lines};

use crate::{Clients, Opening, slots, words};
use answer::{Checked, Kind};

// Client 1 or 2, and open: all that closing asks, and what handing in and asking begin with.
pub fn check_open(o: Opening, client: usize) -> Checked
    ensures { checked result ≡ first_fail (close_lines o client) (done 0) }
{
    if words::no_client(client) {
        return answer::refuse(Kind::NoClient, 0, 0);
    }
    if !words::accepted(o) {
        return answer::refuse(Kind::Closed, 0, 0);
    }
    Ok(())
}

// The slots of a client with these words.
fn reserved(o: Opening) -> usize
    ensures { (result ≡ reserved o) × (result ≤ 70) }
{
    if words::accepted(o) { o.pieces } else { 0 }
}

// Opening with the words `new`.
pub fn check_opening(both: &Clients, client: usize, new: Opening) -> Checked
    ensures { let others = reserved (words_in both.now (other client)) in
        checked result ≡ first_fail (open_lines (words_in both.now client) others client new) (done 0) }
{
    if words::no_client(client) {
        return answer::refuse(Kind::NoClient, 0, 0);
    }
    let mine = words::words_of(both, client);
    if words::accepted(mine) {
        return answer::refuse(Kind::Busy, 0, 0);
    }
    if let Some(bad) = words::bad_word(new) {
        return answer::refuse(Kind::Header, 0, bad);
    }
    let theirs = words::words_of(both, words::other(client));
    let taken = reserved(theirs);
    if 70 - taken < new.pieces {
        return answer::refuse(Kind::Full, 0, 0);
    }
    Ok(())
}

// Handing in, before CONFLICT: what goes by the client's words alone.
fn check_front(o: Opening, client: usize, block: &[u8]) -> Checked
    ensures { checked result ≡ first_fail (front_lines o client block.now) (done 0) }
{
    check_open(o, client)?;
    block::check_one(block, 1)?;
    let new = words::opening_of(block);
    if new == o {
        return Ok(());
    }
    answer::refuse(Kind::Mixed, 1, 0)
}

// Handing in.
pub fn check_hand(slots: &[u16; 1190], o: Opening, client: usize, block: &[u8]) -> Checked
    ensures { checked result ≡ first_fail (hand_lines slots.now o client block.now) (done 0) }
{
    check_front(o, client, block)?;
    let w = o.width;
    let at = slots::start(client, block::word(block, 7) as usize);
    if slots::keeps(slots, at, w) && slots::unlike(slots, at, w, block) {
        return answer::refuse(Kind::Conflict, 1, 0);
    }
    Ok(())
}

// Asking with so many lent words.
pub fn check_asking(slots: &[u16; 1190], o: Opening, client: usize, room: usize) -> Checked
    ensures { checked result ≡ first_fail (ask_lines slots.now o client room) (done 0) }
{
    check_open(o, client)?;
    let k = o.pieces;
    let here = slots::distinct(slots, o, client);
    if here < k {
        return answer::refuse(Kind::Short, here, k);
    }
    let w = o.width;
    if room < w {
        return answer::refuse(Kind::Room, w, 0);
    }
    Ok(())
}
