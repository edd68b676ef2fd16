// Policies of any so many of the people, which give as many maximal groups as so many people can have.
ghost use Rattle.std.specs.Prelude.{◌≤◌};

use crate::{everybody, number, refused};
use planning::Policy;
use std::io;
use std::io::Write;

// The sets of so many people among the groups below `size`, 70 of them at most.
fn sized(size: u32, members: u32) -> [u16; 70] {
    let mut list = [0u16; 70];
    let mut n: usize = 0;
    for g in 0..256 {
        if g < size && u32::count_ones(g) == members {
            if n < 70 {
                list[n] = g as u16;
                n += 1;
            }
        }
    }
    list
}

fn named(to: &mut impl Write, people: usize, members: u32) -> io::Result<()> {
    to.write_all(b"any")?;
    number(to, members as usize)?;
    to.write_all(b" of")?;
    number(to, people)
}

// How many pieces there are, and how many each person holds.
fn pieces(to: &mut impl Write, people: usize, required: &[u16]) -> io::Result<()> {
    let policy = Policy {
        people,
        required,
        forbidden: &[],
    };
    match planning::plan(policy) {
        Ok(plan) => {
            to.write_all(b": pieces")?;
            number(to, plan.pieces)?;
            to.write_all(b" held")?;
            everybody(to, people, &plan)?;
        }
        Err(r) => refused(to, r)?,
    }
    to.write_all(b"\n")
}

// Any so many of the people, who have the groups below `size`: so many sets are required.
fn any(to: &mut impl Write, people: usize, size: u32, members: u32, sets: usize) -> io::Result<()>
    requires { sets ≤ 70 }
{
    named(to, people, members)?;
    let required = sized(size, members);
    pieces(to, people, &required[..sets])
}

// Half of the people and one more: the most maximal groups that so many people have. One person cannot have an accepted policy.
pub fn most(to: &mut impl Write) -> io::Result<()> {
    any(to, 1, 2, 1, 1)?;
    any(to, 2, 4, 2, 1)?;
    any(to, 3, 8, 2, 3)?;
    any(to, 4, 16, 3, 4)?;
    any(to, 5, 32, 3, 10)?;
    any(to, 6, 64, 4, 15)?;
    any(to, 7, 128, 4, 35)?;
    any(to, 8, 256, 5, 56)?;
    any(to, 8, 256, 4, 70)
}
