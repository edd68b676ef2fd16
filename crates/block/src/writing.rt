// Writing a block: words 1 to 255 one after the other, their check made on the way.
ghost use Rattle.std.specs.Prelude.{◌≡◌, ◌++◌, ◌+◌, ◌-◌, ◌*◌, ◌≤◌, length, take, drop};
ghost use Rattle.lists.specs.Over.{over};
ghost use Rattle.block.specs.Words.{put_at};
ghost use Rattle.block.specs.Layout.{held_at};
ghost use Rattle.block.specs.Written.{block_bytes, Buildable};

use crate::{Label, weigh};

// Writes v at word i of b.
pub fn put_word(b: &mut [u8], i: usize, v: u16)
    requires { (1 ≤ i) × (2 * i ≤ length b.old) }
    ensures { b.new ≡ put_at b.old i v }
{
    let at = 2 * (i - 1);
    let [high, low] = v.to_be_bytes();
    b[at] = high;
    b[at + 1] = low;
}

// Word i of a block that is written, i from 1 to 255.
fn body_word(i: usize, l: Label, values: &[u16]) -> u16
    requires { (1 ≤ i) × (i ≤ 255) }
    ensures { result ≡ held_at l values.now i }
{
    match i {
        1 => l.mark,
        2 => l.number,
        3 => l.holder,
        4 => l.people,
        5 => l.pieces,
        6 => l.width,
        7 => l.piece,
        24 => l.year,
        25 => l.set,
        _ => {
            let at = i - 8;
            if at < values.len() { values[at] } else { 0 }
        }
    }
}

// Writes one block, with this label and these values, into the first 512 bytes of out; the rest stays.
pub fn write_block(out: &mut [u8], l: Label, values: &[u16])
    requires in_bounds { 512 ≤ length out.old }
    requires buildable { Buildable l values.now }
    ensures { out.new ≡ over (block_bytes l values.now) out.old }
{
    let mut sum: u32 = 0;
    for i in 1..256 {
        let v = body_word(i, l, values);
        put_word(out, i, v);
        sum = weigh(sum, i, v);
    }
    put_word(out, 256, (sum % 32749) as u16);
}

// Writes one block into out from byte `at` on; the rest stays.
pub fn write_at(out: &mut [u8], at: usize, l: Label, values: &[u16])
    requires at_in_bounds { at + 512 ≤ length out.old }
    requires buildable { Buildable l values.now }
    ensures { out.new ≡ take at out.old ++ over (block_bytes l values.now) (drop at out.old) }
{
    write_block(&mut out[at..], l, values);
}
