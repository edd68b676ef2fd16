// The store: where a piece lies, what is kept, and how it is written, joined and set to 0.
ghost use Rattle.std.specs.Prelude.{◌≡◌, ◌+◌, ◌*◌, ◌≤◌, length, replicate};
ghost use Rattle.lists.specs.Over.{over};
ghost use Rattle.lists.specs.Places.{found};
ghost use Rattle.field.specs.Joined.{joined};
ghost use Rattle.field.specs.Lagrange.{weights_of};
ghost use Rattle.field.specs.Secret.{column};
ghost use Rattle.desk.specs.Slots.{start, region_start, over_at, value_in, keeps_at, distinct, unlike, kept, secret_for};
ghost use Rattle.desk.specs.Inner.{Slot, Small, AllKept};

use crate::Opening;

// Where the slot of piece j begins.
pub fn start(client: usize, j: usize) -> usize
    requires { (1 ≤ j) × (j ≤ 70) }
    ensures { (result ≡ start client j) × (result ≤ 1173) }
{
    if client == 1 {
        17 * (j - 1)
    } else {
        17 * (70 - j)
    }
}

// Where the k slots of a client begin.
pub fn region_start(client: usize, k: usize) -> usize
    requires { k ≤ 70 }
    ensures { (result ≡ region_start client k) × (result + 17 * k ≤ 1190) }
{
    if client == 1 { 0 } else { 17 * (70 - k) }
}

// The slot that begins at `at` keeps a piece of w values.
pub fn keeps(slots: &[u16; 1190], at: usize, w: usize) -> bool
    requires { Slot at w }
    ensures { result ≡ keeps_at slots.now at w }
{
    slots[at] != 0 && (1..w + 1).all(|i| slots[at + i] <= 32748)
}

// How many of its pieces the client with these words keeps.
pub fn distinct(slots: &[u16; 1190], o: Opening, client: usize) -> usize
    requires { Small o }
    ensures { (result ≡ distinct slots.now o client) × (result ≤ o.pieces) }
{
    let k = o.pieces;
    let w = o.width;
    (1..k + 1)
        .filter(|j| keeps(slots, start(client, *j), w))
        .count()
}

// The slot and the block differ in one of the w values.
pub fn unlike(slots: &[u16; 1190], at: usize, w: usize, block: &[u8]) -> bool
    requires slot { Slot at w }
    requires in_bounds { 512 ≤ length block.now }
    ensures { result ≡ found (unlike slots.now at w block.now) }
{
    (1..w + 1).any(|i| slots[at + i] != block::word(block, 7 + i))
}

// A mark and the w values of a block, from `at` on.
pub fn put_piece(slots: &mut [u16; 1190], at: usize, block: &[u8], w: usize)
    requires slot { Slot at w }
    requires in_bounds { 512 ≤ length block.now }
    ensures { slots.new ≡ over_at at (kept block.now w) slots.old }
{
    slots[at] = 1;
    for i in 1..w + 1 {
        slots[at + i] = block::word(block, 7 + i);
    }
}

// n zeros, from `at` on.
pub fn put_zeros(slots: &mut [u16], at: usize, n: usize)
    requires { at + n ≤ length slots.old }
    ensures { slots.new ≡ over_at at (replicate n 0) slots.old }
{
    slots[at..at + n].fill(0);
}

// Value i of each piece 1 to k over the front of `values`, that of piece j at j - 1.
fn write_column(slots: &[u16; 1190], client: usize, k: usize, i: usize, values: &mut [u16])
    requires k_bound { (k ≤ 70) × (i ≤ 16) }
    requires k_in_bounds { k ≤ length values.old }
    ensures { values.new ≡ over (column (value_in slots.now client) k i) values.old }
{
    for j in 0..k {
        values[j] = slots[start(client, j + 1) + i];
    }
}

// Word i of the secret: what the values i of the pieces join to. They go over the front of `values`.
fn secret_word(
    slots: &[u16; 1190],
    o: Opening,
    client: usize,
    weights: &[u16; 70],
    i: usize,
    values: &mut [u16],
) -> u16
    requires small { Small o }
    requires all_kept { AllKept slots.now o client }
    requires weights_value { weights.now ≡ weights_of o.pieces }
    requires le_i { (1 ≤ i) × (i ≤ o.width) }
    requires pieces_in_bounds { o.pieces ≤ length values.old }
    ensures says { result ≡ joined (column (value_in slots.now client) o.pieces i) }
    ensures leaves { values.new ≡ over (column (value_in slots.now client) o.pieces i) values.old }
{
    let k = o.pieces;
    write_column(slots, client, k, i, values);
    field::join_word(&values[..k], weights)
}

// Writes the secret of the client's pieces over the front of the output.
pub fn write_secret(slots: &[u16; 1190], o: Opening, client: usize, out: &mut [u16])
    requires small { Small o }
    requires all_kept { AllKept slots.now o client }
    requires width_in_bounds { o.width ≤ length out.old }
    ensures { out.new ≡ over (secret_for slots.now o client) out.old }
{
    let k = o.pieces;
    let w = o.width;
    let weights = triangle::weights(k);
    let mut values = [0u16; 70];
    for i in 0..w {
        out[i] = secret_word(slots, o, client, &weights, i + 1, &mut values);
    }
}
