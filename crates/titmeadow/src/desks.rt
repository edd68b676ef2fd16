// The desk for firmware, exported for C: its state is lent, a `titmeadow_desk`, and each call is that of the room `desk`, its answer as three numbers.
ghost use Rattle.std.specs.Prelude.{◌≡◌, length};
ghost use Rattle.desk.specs.Opens.{words, words_of};
ghost use Rattle.desk.specs.Lines.{open_at, open_desk, hand_at, hand_desk, ask_at, ask_into, close_at, close_desk};
ghost use Rattle.titmeadow.specs.Said.{said};

use crate::Said;
use desk::Desk;

// The client opens with the words 2, 4, 5, 6 and 24 of its deal: k.
#[unsafe(no_mangle)]
pub extern "C" fn titmeadow_desk_open(
    d: &mut Desk,
    client: usize,
    deal: usize,
    people: usize,
    pieces: usize,
    width: usize,
    year: usize,
) -> Said
    ensures { let new = words deal people pieces width year in
        (result ≡ said (open_at d.old client new)) × (d.new ≡ open_desk d.old client new) }
{
    Said::from(desk::open(d, client, deal, people, pieces, width, year))
}

// The client hands in one block: how many of its pieces are kept then.
#[unsafe(no_mangle)]
pub extern "C" fn titmeadow_desk_hand_in(d: &mut Desk, client: usize, block: &[u8]) -> Said
    ensures { (result ≡ said (hand_at d.old client block.now)) × (d.new ≡ hand_desk d.old client block.now) }
{
    Said::from(desk::hand_in(d, client, block))
}

// The client asks: the secret into the front of `secret`; the result is w.
#[unsafe(no_mangle)]
pub extern "C" fn titmeadow_desk_ask(d: &Desk, client: usize, secret: &mut [u16]) -> Said
    ensures { let desk = d.now in
        (result ≡ said (ask_at desk client (length secret.old))) × (secret.new ≡ ask_into desk.slots (words_of desk client) client secret.old) }
{
    Said::from(desk::ask(d, client, secret))
}

// The client closes: k.
#[unsafe(no_mangle)]
pub extern "C" fn titmeadow_desk_close(d: &mut Desk, client: usize) -> Said
    ensures { (result ≡ said (close_at d.old client)) × (d.new ≡ close_desk d.old client) }
{
    Said::from(desk::close(d, client))
}
