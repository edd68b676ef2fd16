// Salvage: in a block with one word above 32748, the check gives that word back. One block is in mending.rt; the definitions that the
// contracts cite are in specs/.
#![tactic(auto)]

mod mending;

ghost use Rattle.std.specs.Prelude.{◌≡◌, ◌*◌, ◌≤◌, length};
ghost use Rattle.lists.specs.Over.{over};
ghost use Rattle.answer.specs.Outcome.{outcome};
ghost use Rattle.pile.specs.Blocks.{blocks};
ghost use Rattle.salvage.specs.Pile.{mended_pile, rebuilt_words, places, salvaging, salvaged_pile, salvaged_list};

use answer::{Answer, Kind};
use mending::mend_at;

// Mends every block and notes each word rebuilt, in pile order, over the front of the list: how many they are. The rest of the list stays.
fn mend_pile(pile: &mut [u8], list: &mut [u16]) -> usize
    requires { (blocks pile.old ≤ 560) × (2 * blocks pile.old ≤ length list.old) }
    ensures { (pile.new ≡ mended_pile pile.old)
        × (result ≡ length (rebuilt_words pile.old))
        × (list.new ≡ over (places (rebuilt_words pile.old)) list.old) }
{
    let mut count: usize = 0;
    for a in 0..pile.len() / 512 {
        if let Some(word) = mend_at(pile, 512 * a) {
            list[2 * count] = (a + 1) as u16;
            list[2 * count + 1] = word as u16;
            count += 1;
        }
    }
    count
}

// Salvages a lent pile: how many words were rebuilt, and block and word of each in the lent list; or a refusal, which changes neither.
pub fn salvage(pile: &mut [u8], list: &mut [u16]) -> Answer
    ensures says { outcome result ≡ salvaging pile.old (length list.old) }
    ensures mends { pile.new ≡ salvaged_pile pile.old (length list.old) }
    ensures lists { list.new ≡ salvaged_list pile.old list.old }
{
    if pile.len() % 512 != 0 {
        return answer::refuse(Kind::Torn, 0, 0);
    }
    let blocks = pile.len() / 512;
    if 560 < blocks {
        return answer::refuse(Kind::Long, 0, 0);
    }
    if list.len() / 2 < blocks {
        return answer::refuse(Kind::Room, blocks, 0);
    }
    Ok(mend_pile(pile, list))
}
