// Walks each pile that an argument names, a file of data/, with the reader, and prints under its name a line for each answer, with the
// values of the block passed last; then what reading the whole pile answers. It asks twice more than the pile has blocks: with no block
// left the reader stays. What it prints is compared with `stdout`.
#![tactic(auto)]

use answer::Refusal;
use block::Words;
use reader::Seen;
use std::fs::File;
use std::io::Write;
use std::rt::Files;
use std::{env, io};

fn head(to: &mut impl Write, h: Words) -> io::Result<()> {
    to.write_all(b" words")?;
    for word in [
        h.mark, h.deal, h.holder, h.people, h.pieces, h.width, h.piece,
    ] {
        write!(to, " {word}")?;
    }
    Ok(())
}

fn refused(to: &mut impl Write, r: Refusal) -> io::Result<()> {
    let kind = usize::from(r.kind);
    write!(to, " refused {kind} {} {}", r.a, r.b)
}

fn answered(to: &mut impl Write, seen: Seen) -> io::Result<()> {
    match seen {
        Some(Ok(words)) => head(to, words),
        Some(Err(refusal)) => refused(to, refusal),
        None => to.write_all(b" ended"),
    }
}

// Value bytes, as words.
fn values(to: &mut impl Write, b: &[u8]) -> io::Result<()> {
    for i in 0..b.len() / 2 {
        write!(to, " {}", block::word(b, i + 1))?;
    }
    Ok(())
}

// Prints the answer after so many blocks, and gives how many are passed then.
fn step(to: &mut impl Write, pile: &[u8], passed: usize) -> io::Result<usize> {
    let s = reader::read_at(pile, passed);
    answered(to, s.seen)?;
    to.write_all(b" values")?;
    values(to, reader::values_of(pile, s.block))?;
    to.write_all(b"\n")?;
    Ok(s.block)
}

fn walk(to: &mut impl Write, pile: &[u8]) -> io::Result<()> {
    let mut passed = 0;
    for _ in 0..pile.len() / 512 + 2 {
        passed = step(to, pile, passed)?;
    }
    Ok(())
}

fn whole(to: &mut impl Write, pile: &[u8]) -> io::Result<()> {
    to.write_all(b" all")?;
    match reader::read_all(pile) {
        Ok(n) => write!(to, " blocks {n}")?,
        Err(r) => refused(to, r)?,
    }
    to.write_all(b"\n")
}

fn show(rt: &impl Files, to: &mut impl Write, path: &str) -> io::Result<()> {
    let Ok(mut file) = File::open(rt, path) else {
        return to.write_all(b"no such file\n");
    };
    let mut pile = [0u8; 8192];
    let size = streams::read_full(&mut file, &mut pile)?;
    write!(to, "{path}:\n")?;
    walk(to, &pile[..size])?;
    whole(to, &pile[..size])
}

fn main(rt: HostRuntime) -> io::Result<()> {
    let mut to = rt.stdout();
    for path in env::args(&rt)?.skip(1) {
        show(&rt, &mut to, path.as_str())?;
    }
    Ok(())
}
