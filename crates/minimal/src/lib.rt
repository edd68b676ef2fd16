// The minimal required sets in rising number (SCOPE 2.3), and the pieces of a set's members.
#![tactic(auto)]

ghost use Rattle.std.specs.Prelude.{◌≡◌, ◌++◌, ◌-◌, ◌≤◌, replicate};
ghost use Rattle.planning.specs.Sets.{member};
ghost use Rattle.minimal.specs.Minimal.{least, minimals, set_count, counted};

// The minimal sets: the first `count` of the array, behind which it has zeros. 70 are enough, since none lies inside another. It is no vector of
// the kit, since it is Copy.
#[derive(Clone, Copy)]
pub struct Sets {
    pub sets: [u16; 70],
    pub count: usize,
}

// Person i is in the set.
pub fn has(set: u16, i: usize) -> bool
    requires { (1 ≤ i) × (i ≤ 16) }
    ensures { result ≡ member i set }
{
    set >> (i - 1) & 1 == 1
}

// How many of persons 1 to `last` are in the set.
pub fn members(set: u16, last: usize) -> usize
    requires { last ≤ 16 }
    ensures { result ≡ counted set last }
{
    (1..last + 1).filter(|&i| has(set, i)).count()
}

// The group g is a required set, and no other required set lies inside it.
fn minimal(required: &[u16], g: u16) -> bool
    ensures { result ≡ least required.now g }
{
    // One pass, which ends at the first smaller set inside g, as most groups have one: a search for g first would read the whole list for each of them.
    let mut listed = false;
    for &r in required {
        if planning::inside(r, g) {
            if r != g {
                return false;
            }
            listed = true;
        }
    }
    listed
}

// The minimal required sets of so many people.
pub fn minimal_sets(people: usize, required: &[u16]) -> Sets
    requires { people ≤ 8 }
    ensures counts { result.count ≡ set_count people required.now }
    ensures lists { result.sets ≡ minimals people required.now ++ replicate (70 - result.count) 0 }
{
    let mut sets = [0; 70];
    let mut count = 0;
    let size = planning::group_count(people);
    for g in 0..size {
        if minimal(required, g as u16) {
            sets[count] = g as u16;
            count += 1;
        }
    }
    Sets { sets, count }
}
