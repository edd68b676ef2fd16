// The listing program (SCOPE 7): a policy text from standard input, to its end or to 16,385 bytes; its listing is printed, or its refusal.
#![tactic(auto)]

use std::io;
use std::io::Write;

fn main(rt: HostRuntime) -> io::Result<()> {
    let mut text = [0u8; 16385];
    let size = streams::read_full(&mut rt.reader(), &mut text)?;
    let mut out = [0u8; 4113];
    let count = listing::listing(&text[..size], &mut out);
    rt.stdout().write_all(&out[..count])
}
