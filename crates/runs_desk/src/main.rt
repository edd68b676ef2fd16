// A walk at a desk of two clients, call by call, with what each is answered; then calls that are refused, and a store that holds anything. It is
// compared with `stdout`. The deal is that of four people, {1,2}, {2,3} or {3,4} required: 3 pieces, the secret 1234, its coefficients 5 and 7.
#![tactic(auto)]

mod show;

use dealing::Deal;
use desk::Desk;
use planning::Policy;
use std::io;
use std::io::Write;

// The client opens for a deal of this number, of four people and one word.
fn opens(
    to: &mut impl Write,
    name: &str,
    d: &mut Desk,
    client: usize,
    deal: usize,
    pieces: usize,
) -> io::Result<()> {
    show::line(to, name, desk::open(d, client, deal, 4, pieces, 1, 0))
}

fn hands(
    to: &mut impl Write,
    name: &str,
    d: &mut Desk,
    client: usize,
    block: &[u8],
) -> io::Result<()> {
    show::line(to, name, desk::hand_in(d, client, block))
}

// The first block of a card of two.
fn hands_first(
    to: &mut impl Write,
    name: &str,
    d: &mut Desk,
    client: usize,
    card: &[u8; 1024],
) -> io::Result<()> {
    hands(to, name, d, client, &card[..512])
}

fn asks(
    to: &mut impl Write,
    name: &str,
    d: &Desk,
    client: usize,
    out: &mut [u16; 2],
) -> io::Result<()> {
    show::say(to, name, desk::ask(d, client, out))?;
    to.write_all(b", lent")?;
    show::show_words(to, out)?;
    to.write_all(b"\n")
}

// With no word lent.
fn asks_for_none(to: &mut impl Write, name: &str, d: &Desk, client: usize) -> io::Result<()> {
    let mut none = [0u16; 0];
    show::line(to, name, desk::ask(d, client, &mut none))
}

fn closes(to: &mut impl Write, name: &str, d: &mut Desk, client: usize) -> io::Result<()> {
    show::line(to, name, desk::close(d, client))
}

// The policy of the deal.
const POLICY: Policy = Policy {
    people: 4,
    required: &[3, 6, 12],
    forbidden: &[],
};

// A holder's card of the deal under this number and year, with this secret. Were it refused, the walk would print other lines.
fn card(number: usize, year: usize, secret: u16, holder: usize, out: &mut [u8]) {
    let secret = [secret];
    let random = [5u16, 7];
    let deal = Deal {
        policy: POLICY,
        number,
        year,
        secret: &secret,
        random: &random,
    };
    let _ = dealing::deal(deal, holder, out);
}

// Client 1 opens and hands in two of its pieces, one of them twice; between them client 2 asks for more slots than are left, and then for all of them.
fn two_open(to: &mut impl Write, d: &mut Desk) -> io::Result<()> {
    let mut one = [0u8; 512];
    let mut two = [0u8; 1024];
    card(7, 0, 1234, 4, &mut one);
    card(7, 0, 1234, 3, &mut two);
    opens(to, "client 1 opens, 3 pieces:", d, 1, 7, 3)?;
    hands(to, "holder 4's block:", d, 1, &one)?;
    hands(to, "the same again:", d, 1, &one)?;
    opens(to, "client 2 opens, 68 pieces:", d, 2, 9, 68)?;
    opens(to, "client 2 opens, 67 pieces:", d, 2, 9, 67)?;
    hands_first(to, "holder 3's first block:", d, 1, &two)
}

// Client 1 asks with two pieces, and with three.
fn ask_all(to: &mut impl Write, d: &mut Desk) -> io::Result<()> {
    let mut three = [0u8; 512];
    card(7, 0, 1234, 1, &mut three);
    let mut words = [9u16, 9];
    asks(to, "client 1 asks:", d, 1, &mut words)?;
    hands(to, "holder 1's block:", d, 1, &three)?;
    asks(to, "client 1 asks:", d, 1, &mut words)?;
    let mut again = [9u16, 9];
    asks(to, "and again:", d, 1, &mut again)?;
    asks_for_none(to, "with no room:", d, 1)?;
    asks_for_none(to, "client 2 asks:", d, 2)?;
    hands(to, "client 2, holder 1's block:", d, 2, &three)
}

// Client 1 closes, and opens once more; then both close.
fn close_both(to: &mut impl Write, d: &mut Desk) -> io::Result<()> {
    closes(to, "client 1 closes:", d, 1)?;
    closes(to, "and again:", d, 1)?;
    opens(to, "client 1 opens, 4 pieces:", d, 1, 7, 4)?;
    opens(to, "client 1 opens, 3 pieces:", d, 1, 7, 3)?;
    opens(to, "and again:", d, 1, 7, 0)?;
    let mut words = [9u16, 9];
    asks(to, "client 1 asks:", d, 1, &mut words)?;
    closes(to, "client 2 closes:", d, 2)?;
    closes(to, "client 1 closes:", d, 1)
}

// From a fresh desk to one at which both have closed.
fn walk(to: &mut impl Write) -> io::Result<()> {
    let mut d = desk::fresh();
    two_open(to, &mut d)?;
    ask_all(to, &mut d)?;
    close_both(to, &mut d)?;
    show::left(to, &d.slots)
}

// Every call of a client that there is not.
fn stranger(to: &mut impl Write, client: usize) -> io::Result<()> {
    let mut d = desk::fresh();
    let mut words = [9u16, 9];
    let block = [0u8; 512];
    writeln!(to, "client {client}")?;
    opens(to, "opens:", &mut d, client, 7, 3)?;
    hands(to, "hands in:", &mut d, client, &block)?;
    asks(to, "asks:", &d, client, &mut words)?;
    closes(to, "closes:", &mut d, client)
}

// One opening at a fresh desk.
fn opening(
    to: &mut impl Write,
    name: &str,
    deal: usize,
    people: usize,
    pieces: usize,
    width: usize,
    year: usize,
) -> io::Result<()> {
    let mut d = desk::fresh();
    show::line(
        to,
        name,
        desk::open(&mut d, 1, deal, people, pieces, width, year),
    )
}

// Each word at both ends of its range, and past them.
fn words(to: &mut impl Write) -> io::Result<()> {
    opening(to, "deal 0:", 0, 4, 3, 1, 0)?;
    opening(to, "deal 32748:", 32748, 4, 3, 1, 0)?;
    opening(to, "deal 32749:", 32749, 4, 3, 1, 0)?;
    opening(to, "people 0:", 7, 0, 3, 1, 0)?;
    opening(to, "people 8:", 7, 8, 3, 1, 0)?;
    opening(to, "people 9:", 7, 9, 3, 1, 0)?;
    opening(to, "pieces 0:", 7, 4, 0, 1, 0)?;
    opening(to, "pieces 70:", 7, 4, 70, 1, 0)?;
    opening(to, "pieces 71:", 7, 4, 71, 1, 0)?;
    opening(to, "pieces 65541:", 7, 4, 65541, 1, 0)?;
    opening(to, "words 0:", 7, 4, 3, 0, 0)?;
    opening(to, "words 16:", 7, 4, 3, 16, 0)?;
    opening(to, "words 17:", 7, 4, 3, 17, 0)?;
    opening(to, "year 32748:", 7, 4, 3, 1, 32748)?;
    opening(to, "year 32749:", 7, 4, 3, 1, 32749)
}

// Bytes that are no true block of 512.
fn no_blocks(to: &mut impl Write, d: &mut Desk) -> io::Result<()> {
    let mut block = [0u8; 512];
    hands(to, "no bytes:", d, 1, &block[..0])?;
    hands(to, "511 bytes:", d, 1, &block[..511])?;
    hands(to, "513 bytes:", d, 1, &[0u8; 513])?;
    hands(to, "zeros:", d, 1, &block)?;
    card(7, 0, 1234, 4, &mut block);
    block[15] = 0;
    hands(to, "a value changed:", d, 1, &block)?;
    block[14] = 255;
    hands(to, "a value above 32748:", d, 1, &block)
}

// A true block, but of a deal by sets, and under the check that it had before: the first of its words that a desk does not take is the mark.
fn set_blocks(to: &mut impl Write, d: &mut Desk) -> io::Result<()> {
    let mut block = [0u8; 512];
    card(7, 0, 1234, 4, &mut block);
    block[1] = 196;
    block[49] = 1;
    hands(to, "mark and set changed:", d, 1, &block)?;
    block[510] = 47;
    block[511] = 19;
    hands(to, "of a deal by sets:", d, 1, &block)
}

// True blocks that are of another deal or year, or that say otherwise than one that was taken.
fn other_blocks(to: &mut impl Write, d: &mut Desk) -> io::Result<()> {
    let mut block = [0u8; 512];
    card(8, 0, 1234, 4, &mut block);
    hands(to, "another deal:", d, 1, &block)?;
    card(7, 2026, 1234, 4, &mut block);
    hands(to, "another year:", d, 1, &block)?;
    card(7, 0, 1234, 4, &mut block);
    hands(to, "the deal's own:", d, 1, &block)?;
    card(7, 0, 1235, 4, &mut block);
    hands(to, "other values:", d, 1, &block)
}

// Blocks that are not taken.
fn blocks(to: &mut impl Write) -> io::Result<()> {
    let mut d = desk::fresh();
    let block = [0u8; 512];
    hands(to, "before opening:", &mut d, 1, &block)?;
    opens(to, "client 1 opens:", &mut d, 1, 7, 3)?;
    no_blocks(to, &mut d)?;
    set_blocks(to, &mut d)?;
    other_blocks(to, &mut d)?;
    closes(to, "client 1 closes:", &mut d, 1)
}

// A store in which every number is 65535: nothing of it is kept, and nothing of it gets into a sum.
fn spoilt(to: &mut impl Write) -> io::Result<()> {
    let mut d = desk::fresh();
    d.slots = [65535u16; 1190];
    let mut words = [9u16, 9];
    opens(to, "client 2 opens, 2 pieces:", &mut d, 2, 7, 2)?;
    asks(to, "client 2 asks:", &d, 2, &mut words)?;
    closes(to, "client 2 closes:", &mut d, 2)?;
    show::left(to, &d.slots)
}

fn main(rt: HostRuntime) -> io::Result<()> {
    let mut to = rt.stdout();
    walk(&mut to)?;
    stranger(&mut to, 0)?;
    stranger(&mut to, 3)?;
    stranger(&mut to, 18446744073709551615)?;
    words(&mut to)?;
    blocks(&mut to)?;
    spoilt(&mut to)
}
