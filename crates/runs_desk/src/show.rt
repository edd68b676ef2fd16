// What the walk prints: answers, lent words, and how much of the store is filled.
use answer::Answer;
use std::io;
use std::io::Write;

// What a call is answered.
pub fn say(to: &mut impl Write, name: &str, x: Answer) -> io::Result<()> {
    match x {
        Ok(v) => write!(to, "{name} {v}"),
        Err(r) => {
            let kind = usize::from(r.kind);
            write!(to, "{name} refused {kind} {} {}", r.a, r.b)
        }
    }
}

pub fn line(to: &mut impl Write, name: &str, x: Answer) -> io::Result<()> {
    say(to, name, x)?;
    to.write_all(b"\n")
}

pub fn show_words(to: &mut impl Write, words: &[u16]) -> io::Result<()> {
    for word in words {
        write!(to, " {word}")?;
    }
    Ok(())
}

// How many numbers of the store are not 0.
fn filled(slots: &[u16]) -> usize {
    slots.iter().filter(|v| **v != 0).count()
}

pub fn left(to: &mut impl Write, slots: &[u16]) -> io::Result<()> {
    writeln!(to, "left in the store: {}", filled(slots))
}
