// Joins each pile that an argument names, a file of data/, and prints what the joining program prints for it, under its name.
#![tactic(auto)]

use std::fs::File;
use std::io::Write;
use std::rt::Files;
use std::{env, io};

fn show(rt: &impl Files, to: &mut impl Write, path: &str) -> io::Result<()> {
    let Ok(mut file) = File::open(rt, path) else {
        return to.write_all(b"no such file\n");
    };
    let mut pile = [0u8; 65537];
    let size = streams::read_full(&mut file, &mut pile)?;
    let mut out = [0u8; 128];
    let count = joined_line::joined_line(&pile[..size], &mut out);
    write!(to, "{path}: ")?;
    to.write_all(&out[..count])
}

fn main(rt: HostRuntime) -> io::Result<()> {
    let mut to = rt.stdout();
    for path in env::args(&rt)?.skip(1) {
        show(&rt, &mut to, path.as_str())?;
    }
    Ok(())
}
