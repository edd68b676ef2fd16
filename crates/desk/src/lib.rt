// A desk with 70 slots for the pieces of two clients (SCOPE 5.2). The work is done by functions on its parts; the four calls over a lent state
// are thin, and take it apart. The definitions that the contracts cite are in specs/.
#![tactic(auto)]

mod calls;
mod checks;
mod slots;
mod words;

ghost use Rattle.std.specs.Prelude.{◌≡◌, length};
ghost use Rattle.answer.specs.Outcome.{outcome};
ghost use Rattle.desk.specs.Opens.{words, words_of};
ghost use Rattle.desk.specs.Lines.{open_at, open_desk, hand_at, hand_desk, ask_at, ask_into, close_at, close_desk};

use answer::Answer;
pub use calls::{asked, closed, fresh, handed, opened};

// The five words that a client opens with: words 2, 4, 5, 6 and 24 of its deal's blocks. All 0 where it is not open.
#[repr(C)]
#[derive(Clone, Copy, PartialEq, Eq)]
pub struct Opening {
    pub deal: usize,
    pub people: usize,
    pub pieces: usize,
    pub width: usize,
    pub year: usize,
}

// The words of client 1 and of client 2.
#[repr(C)]
#[derive(Clone, Copy)]
pub struct Clients {
    pub one: Opening,
    pub two: Opening,
}

// The state: 70 slots of 17 numbers, and the clients' words.
#[repr(C)]
#[derive(Clone, Copy)]
pub struct Desk {
    pub slots: [u16; 1190],
    pub clients: Clients,
}

// The client opens with these five words, and so has `pieces` slots: k, and the words are stored.
pub fn open(
    d: &mut Desk,
    client: usize,
    deal: usize,
    people: usize,
    pieces: usize,
    width: usize,
    year: usize,
) -> Answer
    ensures { let new = words deal people pieces width year in
        (outcome result ≡ open_at d.old client new) × (d.new ≡ open_desk d.old client new) }
{
    let new = Opening {
        deal,
        people,
        pieces,
        width,
        year,
    };
    opened(&mut d.clients, client, new)
}

// The client hands in one block: how many of its pieces are kept then, this one among them.
pub fn hand_in(d: &mut Desk, client: usize, block: &[u8]) -> Answer
    ensures { (outcome result ≡ hand_at d.old client block.now) × (d.new ≡ hand_desk d.old client block.now) }
{
    handed(&mut d.slots, &d.clients, client, block)
}

// The client asks: the secret over the front of the lent words, and w. The desk is looked at and no more.
pub fn ask(d: &Desk, client: usize, out: &mut [u16]) -> Answer
    ensures { let desk = d.now in
        (outcome result ≡ ask_at desk client (length out.old)) × (out.new ≡ ask_into desk.slots (words_of desk client) client out.old) }
{
    asked(&d.slots, &d.clients, client, out)
}

// The client closes: k; its words are 0 then, and so are its slots.
pub fn close(d: &mut Desk, client: usize) -> Answer
    ensures { (outcome result ≡ close_at d.old client) × (d.new ≡ close_desk d.old client) }
{
    closed(&mut d.slots, &mut d.clients, client)
}
