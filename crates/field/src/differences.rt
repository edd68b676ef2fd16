// Joining a word by differences alone: numbers are added, subtracted and compared, and there is no product, no remainder and no inverse.
ghost use Rattle.std.specs.Prelude.{◌≡◌, ◌++◌, ◌-◌, ◌<◌, ◌≤◌, length, take, drop};
ghost use Rattle.prime.specs.Prime.{p, Below, minus};
ghost use Rattle.field.specs.Joined.{diffs, joined};
ghost use Rattle.field.specs.Differences.{firsts, alternating};

// a - b mod p: where b is the greater one, p is added.
fn subtract(a: u16, b: u16) -> u16
    requires { (a < p) × (b < p) }
    ensures { result ≡ minus a b }
{
    if b <= a { a - b } else { a + (32749 - b) }
}

// The numbers from place m on give way to their differences, each less the one before it: from the back, so that the one before still stands.
fn difference(row: &mut [u16], m: usize)
    requires le_m { (1 ≤ m) × (m ≤ length row.old) }
    requires below { Below row.old }
    ensures { row.new ≡ take m row.old ++ diffs (drop (m - 1) row.old) }
{
    for i in (m..row.len()).rev() {
        row[i] = subtract(row[i], row[i - 1]);
    }
}

// The pieces give way to the first numbers of their rows: with each turn the row that stands from m on keeps its first number, and the next
// row takes the place of the others.
fn write_firsts(row: &mut [u16])
    requires { Below row.old }
    ensures { row.new ≡ firsts row.old }
{
    for m in 1..=row.len() {
        difference(row, m);
    }
}

// The sum with alternating signs: from the back, each number less what those behind it come to.
fn alternate(row: &[u16]) -> u16
    requires { Below row.now }
    ensures { result ≡ alternating row.now }
{
    let mut sum: u16 = 0;
    for number in row.iter().rev() {
        sum = subtract(*number, sum);
    }
    sum
}

// The secret word of the pieces in the row, which give way to the first numbers of their rows.
pub fn join_by_differences(row: &mut [u16]) -> u16
    requires { Below row.old }
    ensures says { result ≡ joined row.old }
    ensures leaves { row.new ≡ firsts row.old }
{
    write_firsts(row);
    alternate(row)
}
