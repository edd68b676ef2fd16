// Arithmetic mod 32749: the pieces of a word, the modular inverse, and joining one word by Lagrange's formula; by differences in differences.rt.
// No value above 32748 enters a sum: where one could, a `requires` says so and every caller shows it.
#![tactic(auto)]

mod differences;

ghost use Rattle.std.specs.Prelude.{◌≡◌, ◌∷◌, ◌+◌, ◌*◌, ◌%◌, ◌<◌, ◌≤◌, length, take};
ghost use Rattle.prime.specs.Prime.{p, Below};
ghost use Rattle.field.specs.Poly.{value, piece};
ghost use Rattle.field.specs.Pieces.{values};
ghost use Rattle.field.specs.Joined.{joined};
ghost use Rattle.prime.specs.Inverse.{inverse};
ghost use Rattle.field.specs.Lagrange.{lagrange_weight, Weights, weights_of};

pub use differences::join_by_differences;

// a + b mod p: where the sum reaches p, p is taken off.
pub fn add(a: u16, b: u16) -> u16
    requires { (a ≤ 32748) × (b ≤ 32748) }
    ensures { result ≡ (a + b) % p }
{
    let sum = a + b;
    if sum < 32749 { sum } else { sum - 32749 }
}

// v, or its remainder where v is above 2^47: one turn of Horner's rule more, times at most 65535 and plus at most 32748, then fits.
fn lower(v: u64) -> u64
    ensures { (result % p ≡ v % p) × (result ≤ 140737488355328) }
{
    if v <= 140737488355328 { v } else { v % 32749 }
}

// The value at x of the polynomial with these coefficients, the lowest first: Horner's rule, from the highest down, with a remainder taken
// only where the next turn needs it.
fn value_at(coefficients: &[u16], x: u16) -> u32
    requires { Below coefficients.now }
    ensures { result ≡ value coefficients.now x % p }
{
    let mut acc: u64 = 0;
    for coefficient in coefficients.iter().rev() {
        acc = lower(acc) * (x as u64) + *coefficient as u64;
    }
    (acc % 32749) as u32
}

// Piece j of the word d with these coefficients.
pub fn piece_of(d: u16, coefficients: &[u16], j: u16) -> u16
    requires { Below (d ∷ coefficients.now) }
    ensures { result ≡ piece d coefficients.now j }
{
    ((value_at(coefficients, j) * (j as u32) + d as u32) % 32749) as u16
}

// The values of piece j: the first of the array, one for each word of the secret, which has q coefficients.
pub fn values_of(secret: &[u16], random: &[u16], q: usize, j: u16) -> [u16; 16]
    requires secret_len_bound { (length secret.now ≤ 16) × (length random.now ≡ length secret.now * q) }
    requires below { Below secret.now × Below random.now }
    ensures { take (length secret.now) result ≡ values q secret.now random.now j }
{
    let mut made = [0u16; 16];
    for (i, d) in secret.iter().enumerate() {
        let at = i * q;
        let end = at + q;
        made[i] = piece_of(*d, &random[at..end], j);
    }
    made
}

// The inverse of a, by the remainders of 32749.
pub fn invert(a: u16) -> u16
    requires { 0 < a % p }
    ensures { result ≡ inverse a }
{
    let mut r: u32 = (a as u32) % 32749;
    let mut s: u32 = 1;
    while 1 < r {
        let q = 32749 / r;
        s = s * (32749 - q) % 32749;
        r = 32749 % r;
    }
    s as u16
}

// The weight of piece j of k: the product of i / (i - j) over the other pieces i.
fn weight_of(k: usize, j: usize) -> u16
    requires { (1 ≤ j) × (j ≤ k) × (k ≤ 70) }
    ensures { result ≡ lagrange_weight k j }
{
    let mut above: usize = 1;
    let mut below: usize = 1;
    for i in 1..k + 1 {
        if i != j {
            above = i * above % 32749;
            below = (i + (32749 - j)) * below % 32749;
        }
    }
    (above * (invert(below as u16) as usize) % 32749) as u16
}

// The weights of pieces 1 to k, that of piece j at j - 1, and 0 past them.
pub fn weights(k: usize) -> [u16; 70]
    requires { k ≤ 70 }
    ensures { result ≡ weights_of k }
{
    let mut table = [0u16; 70];
    for j in 0..k {
        table[j] = weight_of(k, j + 1);
    }
    table
}

// The secret word of these pieces: the sum of the pieces, each times its weight.
pub fn join_word(pieces: &[u16], weights: &[u16; 70]) -> u16
    requires pieces_len_bound { length pieces.now ≤ 70 }
    requires below { Below pieces.now }
    requires weights { Weights (length pieces.now) weights.now }
    ensures { result ≡ joined pieces.now }
{
    let mut sum: u64 = 0;
    for (piece, weight) in pieces.iter().zip(weights) {
        sum += (*piece as u64) * (*weight as u64);
    }
    (sum % 32749) as u16
}
