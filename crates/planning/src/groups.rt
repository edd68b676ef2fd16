// The maximal groups, by asking the required list about each group.
ghost use Rattle.std.specs.Prelude.{◌≡◌, [], ◌≤◌};
ghost use Rattle.planning.specs.Groups.{maximal, groups, piece_count, rows_of};

use crate::Rows;
use crate::sets::{alone, either, everyone, group_count, inside, lacking, marks};

// The group g is maximal: no required set lies inside it, and each of the others is the one member that it lacks of some required set.
fn maximal(required: &[u16], people: usize, g: u16) -> bool
    requires { people ≤ 8 }
    ensures { result ≡ maximal people required.now g }
{
    let mut within = false;
    let mut found = g;
    for &set in required {
        let lacks = lacking(set, g);
        within = within | (lacks == 0);
        found = either(found, alone(lacks));
    }
    !within && inside(everyone(people), found)
}

// How many pieces there are, and their rows over a table of empty rows: 70 are enough.
pub fn fill(required: &[u16], people: usize, rows: &mut Rows) -> usize
    requires { (people ≤ 8) × (rows.old ≡ rows_of []) }
    ensures counts { result ≡ piece_count people required.now }
    ensures table { rows.new ≡ rows_of (groups people required.now) }
{
    let size = group_count(people);
    let mut k = 0;
    for g in 0..size {
        if maximal(required, people, g as u16) {
            rows[k] = marks(g as u16);
            k += 1;
        }
    }
    k
}
