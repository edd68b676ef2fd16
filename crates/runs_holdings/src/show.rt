// The answer to one list, under its name.
use answer::Refusal;
use holdings::{Holdings, Verdict};
use planning::Policy;
use std::io;
use std::io::Write;

fn number(to: &mut impl Write, x: usize) -> io::Result<()> {
    write!(to, " {x}")
}

// A refusal, its number and its two places.
pub fn refused(to: &mut impl Write, r: Refusal) -> io::Result<()> {
    to.write_all(b": refused")?;
    number(to, usize::from(r.kind))?;
    number(to, r.a)?;
    number(to, r.b)?;
    to.write_all(b"\n")
}

fn judged(to: &mut impl Write, x: Result<Verdict, Refusal>) -> io::Result<()> {
    match x {
        Ok(Verdict::Suits) => {
            to.write_all(b": suits")?;
        }
        Ok(Verdict::Few(g)) => {
            to.write_all(b": few")?;
            number(to, g)?;
        }
        Ok(Verdict::Many(g)) => {
            to.write_all(b": many")?;
            number(to, g)?;
        }
        Err(r) => return refused(to, r),
    }
    to.write_all(b"\n")
}

// Judges a list for a policy that forbids no set.
pub fn show(
    to: &mut impl Write,
    name: &[u8],
    people: usize,
    required: &[u16],
    list_people: usize,
    pieces: usize,
    needed: usize,
    marks: &[u8],
) -> io::Result<()> {
    to.write_all(name)?;
    let policy = Policy {
        people,
        required,
        forbidden: &[],
    };
    let list = Holdings {
        people: list_people,
        pieces,
        needed,
        marks,
    };
    judged(to, holdings::judge(policy, list))
}
