// Adding two blocks into one under a new deal number and year (SCOPE 4.1): the values one by one mod p, the words 3 to 7 as both have them. Adding the
// cards of a deal of zeros to those of another deal renews them.
#![tactic(auto)]

ghost use Rattle.std.specs.Prelude.{◌≡◌, [], ◌∷◌, length, take};
ghost use Rattle.lists.specs.Over.{over};
ghost use Rattle.lists.specs.Places.{placed};
ghost use Rattle.answer.specs.Outcome.{outcome, checked, done};
ghost use Rattle.answer.specs.Checks.{first_fail};
ghost use Rattle.field.specs.Added.{added};
ghost use Rattle.block.specs.Layout.{values_of, width_of};
ghost use Rattle.block.specs.Deals.{bad_number, bad_year};
ghost use Rattle.block.specs.Open.{TrueBlock};
ghost use Rattle.adding.specs.Sum.{unlike_at, pair_in, sum_of};
ghost use Rattle.adding.specs.Adding.{unlike, same_pair, repeated, add_lines, adding, sum_into};
ghost use Rattle.adding.specs.Laws.{Addable};

use answer::{Answer, Checked, Kind};
use block::Label;

// A deal number and a year, as they are lent.
#[derive(Clone, Copy, PartialEq, Eq)]
pub struct Pair {
    pub number: usize,
    pub year: usize,
}

// The first of words 3 to 7 in which the blocks differ, if there is one.
fn first_unlike(one: &[u8], two: &[u8]) -> Option<usize>
    requires { (length one.now ≡ 512) × (length two.now ≡ 512) }
    ensures { result ≡ placed (unlike_at one.now two.now) }
{
    (3..8).find(|i| block::word(one, *i) != block::word(two, *i))
}

// The deal number and the year of block b.
fn pair_in(b: &[u8]) -> Pair
    requires { length b.now ≡ 512 }
    ensures { result ≡ pair_in b.now }
{
    Pair {
        number: block::word(b, 2) as usize,
        year: block::word(b, 24) as usize,
    }
}

// Number and year are those of block b.
fn same_pair(new: Pair, b: &[u8]) -> bool
    requires { length b.now ≡ 512 }
    ensures { result ≡ same_pair new b.now }
{
    new == pair_in(b)
}

// 24, 8, 25 and 8 of two blocks and a new number and year.
fn check_both(one: &[u8], two: &[u8], new: Pair) -> Checked
    requires { (length one.now ≡ 512) × (length two.now ≡ 512) }
    ensures { let both = unlike one.now two.now in
        let again = repeated one.now two.now new in
        checked result ≡ first_fail (both ∷ bad_number new.number ∷ bad_year new.year ∷ again ∷ []) (done 0) }
{
    if let Some(i) = first_unlike(one, two) {
        return answer::refuse(Kind::Unlike, i, 0);
    }
    if new.number == 0 || 32748 < new.number {
        return answer::refuse(Kind::Deal, 0, 0);
    }
    if 32748 < new.year {
        return answer::refuse(Kind::Year, 0, 0);
    }
    if same_pair(new, one) || same_pair(new, two) {
        return answer::refuse(Kind::Deal, 0, 0);
    }
    Ok(())
}

// All checks of adding two blocks into an output of so many bytes, in their order.
fn check_add(one: &[u8], two: &[u8], new: Pair, room: usize) -> Checked
    ensures { checked result ≡ first_fail (add_lines one.now two.now new room) (done 0) }
{
    block::check_one(one, 1)?;
    block::check_one(two, 2)?;
    check_both(one, two, new)?;
    if room < 512 {
        return answer::refuse(Kind::Room, 1, 0);
    }
    Ok(())
}

// The values of the sum of two true blocks with w values each: the first w of the array.
fn added_values(one: &[u8], two: &[u8], w: usize) -> [u16; 16]
    requires true_block { TrueBlock one.now × TrueBlock two.now }
    requires w_value { (w ≡ width_of one.now) × (w ≡ width_of two.now) }
    ensures { take w result ≡ added (values_of one.now) (values_of two.now) }
{
    let mut made = [0u16; 16];
    for i in 0..w {
        made[i] = field::add(block::word(one, 8 + i), block::word(two, 8 + i));
    }
    made
}

// Writes the sum over the front of the output.
fn write_sum(one: &[u8], two: &[u8], new: Pair, out: &mut [u8])
    requires { Addable one.now two.now new (length out.old) }
    ensures { out.new ≡ over (sum_of one.now two.now new) out.old }
{
    let people = block::word(one, 4);
    let pieces = block::word(one, 5);
    let width = block::word(one, 6);
    let holder = block::word(one, 3);
    let piece = block::word(one, 7);
    let w = width as usize;
    let made = added_values(one, two, w);
    let label = Label {
        mark: 1987,
        number: new.number as u16,
        holder,
        people,
        pieces,
        width,
        piece,
        year: new.year as u16,
        set: 0,
    };
    block::write_block(out, label, &made[..w]);
}

// Adds two blocks: the sum over the front of the output, and 1, a number of blocks; or a refusal, which changes nothing.
pub fn add(one: &[u8], two: &[u8], new: Pair, out: &mut [u8]) -> Answer
    ensures says { outcome result ≡ adding one.now two.now new (length out.old) }
    ensures leaves { out.new ≡ sum_into one.now two.now new out.old }
{
    check_add(one, two, new, out.len())?;
    write_sum(one, two, new, out);
    Ok(1)
}
