// The joining program (SCOPE 7.3): a pile from standard input, to its end or to 65,537 bytes; its secret is printed, or its refusal.
#![tactic(auto)]

use std::io;
use std::io::Write;

fn main(rt: HostRuntime) -> io::Result<()> {
    let mut pile = [0u8; 65537];
    let size = streams::read_full(&mut rt.reader(), &mut pile)?;
    let mut out = [0u8; 128];
    let count = joined_line::joined_line(&pile[..size], &mut out);
    rt.stdout().write_all(&out[..count])
}
