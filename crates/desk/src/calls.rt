// The four calls on the parts of the state: both clients' words and the slots, lent. A refusal changes nothing.
ghost use Rattle.std.specs.Prelude.{◌≡◌, length};
ghost use Rattle.answer.specs.Outcome.{outcome};
ghost use Rattle.desk.specs.Opens.{fresh_desk, words_in};
ghost use Rattle.desk.specs.Lines.{hand_says, ask_says, ask_into, close_says};
ghost use Rattle.desk.specs.Parts.{open_in, open_clients, hand_into, close_clients, close_into};

use crate::{Clients, Desk, Opening, checks, slots, words};
use answer::Answer;

// A desk at which nobody has opened.
pub fn fresh() -> Desk
    ensures { result ≡ fresh_desk }
{
    let none = words::none();
    Desk {
        slots: [0u16; 1190],
        clients: Clients {
            one: none,
            two: none,
        },
    }
}

// The client opens with the words `new`: they are stored.
pub fn opened(both: &mut Clients, client: usize, new: Opening) -> Answer
    ensures { (outcome result ≡ open_in both.old client new) × (both.new ≡ open_clients both.old client new) }
{
    checks::check_opening(both, client, new)?;
    words::put(both, client, new);
    Ok(new.pieces)
}

// The client hands in one block: its piece goes to its slot.
pub fn handed(slots: &mut [u16; 1190], both: &Clients, client: usize, block: &[u8]) -> Answer
    ensures { let o = words_in both.now client in
        (outcome result ≡ hand_says slots.old o client block.now) × (slots.new ≡ hand_into slots.old o client block.now) }
{
    let o = words::words_of(both, client);
    checks::check_hand(slots, o, client, block)?;
    let at = slots::start(client, block::word(block, 7) as usize);
    slots::put_piece(slots, at, block, o.width);
    let n = slots::distinct(slots, o, client);
    Ok(n)
}

// The client asks: the secret over the front of the lent words.
pub fn asked(slots: &[u16; 1190], both: &Clients, client: usize, out: &mut [u16]) -> Answer
    ensures { let o = words_in both.now client in
        (outcome result ≡ ask_says slots.now o client (length out.old)) × (out.new ≡ ask_into slots.now o client out.old) }
{
    let o = words::words_of(both, client);
    checks::check_asking(slots, o, client, out.len())?;
    slots::write_secret(slots, o, client, out);
    Ok(o.width)
}

// The client closes: its slots are set to 0, and so are its words.
pub fn closed(slots: &mut [u16; 1190], both: &mut Clients, client: usize) -> Answer
    ensures says { outcome result ≡ close_says (words_in both.old client) client }
    ensures leaves { (slots.new ≡ close_into slots.old (words_in both.old client) client) × (both.new ≡ close_clients both.old client) }
{
    let o = words::words_of(both, client);
    checks::check_open(o, client)?;
    let k = o.pieces;
    let at = slots::region_start(client, k);
    slots::put_zeros(slots, at, 17 * k);
    words::put(both, client, words::none());
    Ok(k)
}
