// What a deal by sets gave, printed: of a card the words 1 to 8, 24, 25 and 256 of each block and the byte past it, else the refusal.
ghost use Rattle.std.specs.Prelude.{◌≤◌};

use answer::Answer;
use std::io;
use std::io::Write;

// Word i of a block.
fn word(to: &mut impl Write, block: &[u8], i: usize) -> io::Result<()>
    requires { (1 ≤ i) × (i ≤ 256) }
{
    if 2 * i <= block.len() {
        write!(to, " {}", block::word(block, i))?;
    }
    Ok(())
}

// A block: words 1 to 8, 24, 25 and 256.
fn show_block(to: &mut impl Write, block: &[u8]) -> io::Result<()> {
    write!(to, "\n ")?;
    for i in 1..9 {
        word(to, block, i)?;
    }
    word(to, block, 24)?;
    word(to, block, 25)?;
    word(to, block, 256)
}

// The blocks of a card, and the byte that follows it.
fn show_card(to: &mut impl Write, out: &[u8], count: usize) -> io::Result<()> {
    for block in out.chunks_exact(512).take(count) {
        show_block(to, block)?;
    }
    if let Some(next) = out.get(count.saturating_mul(512)) {
        write!(to, "\n  then {next}")?;
    }
    Ok(())
}

pub fn show(to: &mut impl Write, answer: Answer, out: &[u8]) -> io::Result<()> {
    match answer {
        Ok(count) => {
            write!(to, " blocks {count}")?;
            show_card(to, out, count)?;
        }
        Err(r) => write!(to, " refused {} {} {}", usize::from(r.kind), r.a, r.b)?,
    }
    writeln!(to)
}
