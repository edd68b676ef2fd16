// One block of a pile: the search for its one dirty word, the value that the check asks for there, and the block mended or put back.
ghost use Rattle.std.specs.Prelude.{◌≡◌, ◌++◌, ◌+◌, ◌%◌, ◌≤◌, length, take, drop};
ghost use Rattle.lists.specs.Places.{first_in, placed};
ghost use Rattle.block.specs.Open.{above};
ghost use Rattle.salvage.specs.Mended.{dirty_words, sole, other_sum, value_for, rebuilt, mended_block, CleanBut};

// The first word from word `start` on that is above 32748.
fn next_above(b: &[u8], start: usize) -> Option<usize>
    requires in_bounds { 512 ≤ length b.now }
    requires le_start { 1 ≤ start }
    ensures { result ≡ placed (first_in (above b.now) start 257) }
{
    (start..257).find(|i| 32748 < block::word(b, *i))
}

// The one word above 32748; none where there are more.
fn sole_dirty(b: &[u8]) -> Option<usize>
    requires { 512 ≤ length b.now }
    ensures { result ≡ placed (sole (dirty_words b.now)) }
{
    let first = next_above(b, 1)?;
    match next_above(b, first + 1) {
        Some(_) => None,
        None => Some(first),
    }
}

// What the check sums, less what word i adds to it, mod 32749.
fn other_sum(b: &[u8], i: usize) -> u32
    requires in_bounds { 512 ≤ length b.now }
    requires clean_but { CleanBut b.now i }
    ensures { result ≡ other_sum b.now i % 32749 }
{
    let mut sum: u32 = 0;
    for k in 1..256 {
        if k != i {
            sum = block::weigh(sum, k, block::word(b, k));
        }
    }
    sum % 32749
}

// The value that the check asks for at word i.
fn value_for(b: &[u8], i: usize) -> u16
    requires in_bounds { 512 ≤ length b.now }
    requires le_i { (1 ≤ i) × (i ≤ 256) }
    requires clean_but { CleanBut b.now i }
    ensures { result ≡ value_for b.now i }
{
    let sum = other_sum(b, i);
    if i == 256 {
        return sum as u16;
    }
    let check = block::word(b, 256);
    let lack = ((check as u32) + (32749 - sum)) % 32749;
    ((field::invert(i as u16) as u32) * lack % 32749) as u16
}

// Mends the block at the front of b, and answers which word was rebuilt.
fn mend(b: &mut [u8]) -> Option<usize>
    requires { 512 ≤ length b.old }
    ensures { (result ≡ placed (rebuilt b.old)) × (b.new ≡ mended_block b.old) }
{
    let i = sole_dirty(b)?;
    let old = block::word(b, i);
    let v = value_for(b, i);
    block::put_word(b, i, v);
    if let Some(_) = block::first_wrong(b) {
        block::put_word(b, i, old);
        return None;
    }
    Some(i)
}

// Mends the block of a pile that begins at byte `at`: the word rebuilt. The rest of the pile stays.
pub fn mend_at(pile: &mut [u8], at: usize) -> Option<usize>
    requires { at + 512 ≤ length pile.old }
    ensures { (result ≡ placed (rebuilt (drop at pile.old)))
        × (pile.new ≡ take at pile.old ++ mended_block (drop at pile.old)) }
{
    mend(&mut pile[at..])
}
