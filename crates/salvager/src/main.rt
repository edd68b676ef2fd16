// The salvaging program (SCOPE 7.4): a pile from standard input, to its end or to 65,537 bytes; the salvaged pile goes to standard output, the
// report to standard error. Of a pile that is refused only the refusal is written, to standard error.
#![tactic(auto)]

use std::io;
use std::io::Write;

fn main(rt: HostRuntime) -> io::Result<()> {
    let mut pile = [0u8; 65537];
    let size = streams::read_full(&mut rt.reader(), &mut pile)?;
    let mut out = [0u8; 2444];
    let report = salvaged_text::salvaged_text(&mut pile[..size], &mut out);
    rt.stdout().write_all(&pile[..report.bytes])?;
    rt.stderr().write_all(&out[..report.text])
}
