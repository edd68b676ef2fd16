// P11's block, byte by byte, and what opening says of it: as it is, in a shorter and a longer pile, and with one word changed; and the same of a
// block of a deal by sets.
// What it prints is compared with `stdout`.
#![tactic(auto)]

ghost use Rattle.std.specs.Prelude.{◌≡◌, ◌≤◌, length};

use block::Label;
use std::io;
use std::io::Write;

fn number(to: &mut impl Write, n: u64) -> io::Result<()> {
    write!(to, " {n}")
}

fn show_bytes(to: &mut impl Write, b: &[u8]) -> io::Result<()> {
    for &byte in b {
        number(to, u64::from(byte))?;
    }
    Ok(())
}

// What opening says, and the value bytes.
fn show(to: &mut impl Write, pile: &[u8]) -> io::Result<()> {
    match block::open(pile) {
        Ok(h) => {
            to.write_all(b" words")?;
            number(to, h.mark as u64)?;
            number(to, h.deal as u64)?;
            number(to, h.holder as u64)?;
            number(to, h.people as u64)?;
            number(to, h.pieces as u64)?;
            number(to, h.width as u64)?;
            number(to, h.piece as u64)?;
        }
        Err(r) => {
            to.write_all(b" refused")?;
            number(to, usize::from(r.kind) as u64)?;
            number(to, r.a as u64)?;
            number(to, r.b as u64)?;
        }
    }
    to.write_all(b" values")?;
    show_bytes(to, block::values(pile))?;
    to.write_all(b"\n")
}

// What opening says of the first n bytes.
fn show_front(to: &mut impl Write, b: &[u8], n: usize) -> io::Result<()> {
    if n <= b.len() {
        write!(to, "{}", n as u64)?;
        to.write_all(b" bytes:")?;
        show(to, &b[0..n])?;
    }
    Ok(())
}

// P11's block in the first 512 of 600 bytes, the others 9.
fn p11() -> [u8; 600]
    ensures { 600 ≡ length result }
{
    let mut out = [9u8; 600];
    let l = Label {
        mark: 1987,
        number: 7,
        holder: 4,
        people: 4,
        pieces: 3,
        width: 1,
        piece: 1,
        year: 0,
        set: 0,
    };
    let values = [1246u16];
    block::write_block(&mut out, l, &values);
    out
}

// A block of a deal by sets in the first 512 of 600 bytes, the others 9: piece 1 of set 1, which has two members of four.
fn by_sets() -> [u8; 600]
    ensures { 600 ≡ length result }
{
    let mut out = [9u8; 600];
    let l = Label {
        mark: 1988,
        number: 7,
        holder: 1,
        people: 4,
        pieces: 2,
        width: 1,
        piece: 1,
        year: 0,
        set: 1,
    };
    let values = [1239u16];
    block::write_block(&mut out, l, &values);
    out
}

// The block b with v at word i and then `check` at word 256.
fn changed(to: &mut impl Write, b: &mut [u8], i: usize, v: u16, check: u16) -> io::Result<()>
    requires { (1 ≤ i) × (i ≤ 256) × (512 ≤ length b.old) }
{
    block::put_word(b, i, v);
    block::put_word(b, 256, check);
    to.write_all(b"word")?;
    number(to, i as u64)?;
    number(to, v as u64)?;
    to.write_all(b" check")?;
    number(to, check as u64)?;
    to.write_all(b":")?;
    show(to, b)
}

// P11's block changed.
fn case(to: &mut impl Write, i: usize, v: u16, check: u16) -> io::Result<()>
    requires { (1 ≤ i) × (i ≤ 256) }
{
    let mut b = p11();
    changed(to, &mut b, i, v, check)
}

// The block of the deal by sets changed.
fn set_case(to: &mut impl Write, i: usize, v: u16, check: u16) -> io::Result<()>
    requires { (1 ≤ i) × (i ≤ 256) }
{
    let mut b = by_sets();
    to.write_all(b"by sets, ")?;
    changed(to, &mut b, i, v, check)
}

fn main(rt: HostRuntime) -> io::Result<()> {
    let mut to = rt.stdout();
    let b = p11();
    to.write_all(b"bytes")?;
    show_bytes(&mut to, &b)?;
    to.write_all(b"\n")?;
    show_front(&mut to, &b, 600)?;
    show_front(&mut to, &b, 512)?;
    show_front(&mut to, &b, 511)?;
    show_front(&mut to, &b, 0)?;
    // a slot of 32748 passes, 32749 and 32767 are UNREAD though the check is that of the words mod p
    case(&mut to, 8, 32748, 2049)?;
    case(&mut to, 8, 32749, 2057)?;
    case(&mut to, 8, 32767, 2201)?;
    case(&mut to, 256, 32767, 32767)?;
    case(&mut to, 8, 32767, 32767)?;
    case(&mut to, 255, 40000, 65535)?;
    // a word changed with the check left, and the check changed
    case(&mut to, 8, 1247, 12025)?;
    case(&mut to, 256, 12026, 12026)?;
    // each word of the header wrong by itself, with a right check; the mark of a deal by sets wants a set
    case(&mut to, 1, 1986, 12024)?;
    case(&mut to, 1, 1989, 12027)?;
    case(&mut to, 1, 1988, 12026)?;
    case(&mut to, 2, 0, 12011)?;
    case(&mut to, 3, 0, 12013)?;
    case(&mut to, 3, 9, 12040)?;
    case(&mut to, 3, 5, 12028)?;
    case(&mut to, 4, 0, 12009)?;
    case(&mut to, 4, 3, 12021)?;
    case(&mut to, 4, 9, 12045)?;
    case(&mut to, 5, 0, 12010)?;
    case(&mut to, 5, 71, 12365)?;
    case(&mut to, 6, 0, 12019)?;
    case(&mut to, 6, 17, 12121)?;
    case(&mut to, 7, 0, 12018)?;
    case(&mut to, 7, 4, 12046)?;
    case(&mut to, 9, 1, 12034)?;
    case(&mut to, 23, 1, 12048)?;
    case(&mut to, 25, 1, 12050)?;
    case(&mut to, 255, 1, 12280)?;
    // the largest of each that are right
    case(&mut to, 2, 32748, 12009)?;
    case(&mut to, 4, 8, 12041)?;
    case(&mut to, 5, 70, 12360)?;
    case(&mut to, 6, 16, 12115)?;
    case(&mut to, 7, 3, 12039)?;
    // the year, whatever it is, but for a slot that is UNREAD
    case(&mut to, 24, 2026, 27900)?;
    case(&mut to, 24, 32748, 12001)?;
    case(&mut to, 24, 32749, 12025)?;
    // a block of a deal by sets as it is, and with its largest words
    let s = by_sets();
    show_front(&mut to, &s, 512)?;
    set_case(&mut to, 25, 70, 13706)?;
    set_case(&mut to, 5, 1, 11976)?;
    set_case(&mut to, 5, 4, 11991)?;
    set_case(&mut to, 7, 2, 11988)?;
    set_case(&mut to, 24, 2026, 27856)?;
    // no set, or one past 70, also by the check; more pieces than people; a piece that the set has not
    set_case(&mut to, 25, 0, 11956)?;
    set_case(&mut to, 25, 71, 13731)?;
    set_case(&mut to, 25, 0, 11981)?;
    set_case(&mut to, 5, 0, 11971)?;
    set_case(&mut to, 5, 5, 11996)?;
    set_case(&mut to, 7, 3, 11995)?;
    // another mark: the first scheme has no set
    set_case(&mut to, 1, 1987, 11980)?;
    set_case(&mut to, 1, 1989, 11982)?;
    // the words about the year and the set are 0
    set_case(&mut to, 9, 1, 11990)?;
    set_case(&mut to, 23, 1, 12004)?;
    set_case(&mut to, 26, 1, 12007)?;
    set_case(&mut to, 255, 1, 12236)
}
