// Salvages each pile that an argument names, a file of data/, and prints under its name the report of the salvaging program, and what the
// joining program prints for the pile that it wrote.
#![tactic(auto)]

use std::fs::File;
use std::io::Write;
use std::rt::Files;
use std::{env, io};

fn salvage_and_join(to: &mut impl Write, pile: &mut [u8]) -> io::Result<()> {
    let mut report = [0u8; 2444];
    let written = salvaged_text::salvaged_text(pile, &mut report);
    to.write_all(&report[..written.text])?;
    if 0 < written.bytes {
        let mut out = [0u8; 128];
        let count = joined_line::joined_line(&pile[..written.bytes], &mut out);
        to.write_all(&out[..count])?;
    }
    Ok(())
}

fn show(rt: &impl Files, to: &mut impl Write, path: &str) -> io::Result<()> {
    let Ok(mut file) = File::open(rt, path) else {
        return to.write_all(b"no such file\n");
    };
    let mut pile = [0u8; 65537];
    let size = streams::read_full(&mut file, &mut pile)?;
    write!(to, "{path}: ")?;
    salvage_and_join(to, &mut pile[..size])
}

fn main(rt: HostRuntime) -> io::Result<()> {
    let mut to = rt.stdout();
    for path in env::args(&rt)?.skip(1) {
        show(&rt, &mut to, path.as_str())?;
    }
    Ok(())
}
