// Cards of other years than 0, and years that are refused.
use crate::{P1, case};
use dealing::Deal;
use std::io;
use std::io::Write;

// P11's deal to this holder, under another number and year.
fn in_year(
    to: &mut impl Write,
    name: &str,
    number: usize,
    year: usize,
    holder: usize,
) -> io::Result<()> {
    let deal = Deal {
        policy: P1,
        number,
        year,
        secret: &[1234],
        random: &[5, 7],
    };
    case(to, name, deal, holder, 1536)
}

// Years in their range and past it; the number is looked at before the year, and the holder after it.
pub fn years(to: &mut impl Write) -> io::Result<()> {
    in_year(to, "P11 in 2026, holder", 7, 2026, 4)?;
    in_year(to, "year 32748, holder", 7, 32748, 4)?;
    in_year(to, "year 32749, holder", 7, 32749, 4)?;
    in_year(to, "year 65536, holder", 7, 65536, 4)?;
    in_year(to, "deal and year wrong, holder", 0, 32749, 5)?;
    in_year(to, "year and holder wrong, holder", 7, 32749, 5)
}
