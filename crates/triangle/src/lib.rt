// The weights of the pieces ready made, read off a stored triangle: no inverse, no product and no remainder. The numbers stand in table.rt.
#![tactic(auto)]

mod table;

ghost use Rattle.std.specs.Prelude.{◌≡◌, ◌≤◌};
ghost use Rattle.field.specs.Lagrange.{weights_of};
ghost use Rattle.triangle.specs.Triangle.{line_of, place_of};

// The line in which row k stands: in front in line k, or, where k is above 35, behind in line 71 - k.
fn line_of(k: usize) -> usize
    requires { k ≤ 70 }
    ensures { result ≡ line_of k }
{
    if 35 < k { 71 - k } else { k }
}

// Where in it the weight of piece j stands.
fn place_of(k: usize, j: usize) -> usize
    requires { (1 ≤ j) × (j ≤ k) × (k ≤ 70) }
    ensures { result ≡ place_of k j }
{
    if 35 < k { 71 - k + (j - 1) } else { j - 1 }
}

// The weights of pieces 1 to k, that of piece j at j - 1, and 0 past them.
pub fn weights(k: usize) -> [u16; 70]
    requires { k ≤ 70 }
    ensures { result ≡ weights_of k }
{
    let line = table::stored_line(line_of(k));
    let mut table = [0u16; 70];
    for j in 1..k + 1 {
        table[j - 1] = line[place_of(k, j)];
    }
    table
}
