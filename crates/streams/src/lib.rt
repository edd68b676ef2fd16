// Reading a stream into a lent buffer. Nothing is asked of the heap, which the programs that stand on this crate would otherwise do for
// the text or the pile that they are given.
#![tactic(auto)]

ghost use Rattle.std.specs.Prelude.{◌<◌, take, length, IfOk};
ghost use Rattle.std.specs.Io.{ReadsAtMost};
ghost use Rattle.std.specs.Io.KnownBytes.{Consumes, IsAtEnd};

use std::io;
use std::io::Read;

// Reads until `into` is full or the stream has ended, and gives how many bytes it put at the start of `into`: they are the next ones of the
// stream, in order. Fewer than `into` has room for are given only where the stream has ended. The bytes of `into` behind them are no part of
// the answer.
pub fn read_full<R: Read>(from: &mut R, into: &mut [u8]) -> io::Result<usize>
    ensures bound { ReadsAtMost result into.new }
    ensures bytes { IfOk result (λ n. Consumes (R.remaining from.old) (R.remaining from.new) (take n into.new)) }
    ensures end { IfOk result (λ n. n < length into.new → IsAtEnd (R.remaining from.new)) }
{
    let mut at: usize = 0;
    while at < into.len() {
        let got = from.read(&mut into[at..])?;
        if got == 0 {
            return Ok(at);
        }
        at += got;
    }
    Ok(at)
}
