// Which deal a pile is of: that of its largest heap, a heap being all blocks of one deal. One pass settles it for a pile of one deal; the heaps
// of a mixed one are counted block by block.
ghost use Rattle.std.specs.Prelude.{◌≡◌, ◌≤◌};
ghost use Rattle.lists.specs.Places.{placed};
ghost use Rattle.pile.specs.Blocks.{blocks};
ghost use Rattle.joining.specs.Pile.{heap_of, own_block, own_deal};
ghost use Rattle.joining.specs.Checks.{first_stray, mixed_at};
ghost use Rattle.joining.specs.Inner.{Unmixed};

use block::DealWords;

// The own deal of a pile that is not mixed: that of its first block, as of any other.
pub fn own_deal(pile: &[u8]) -> DealWords
    requires { Unmixed pile.now }
    ensures { result ≡ own_deal pile.now }
{
    pile::deal_at(pile, 1)
}

// The first block outside the heap of the deal d.
#[tactic(auto, unfolding(pile::specs::Blocks::blocks))]
fn first_stray(pile: &[u8], d: DealWords) -> Option<usize>
    ensures { result ≡ placed (first_stray pile.now d) }
{
    (1..pile.len() / 512 + 1).find(|a| !block::same_deal(pile::deal_at(pile, *a), d))
}

// How many blocks are of the deal d.
fn heap_of(pile: &[u8], d: DealWords) -> usize
    ensures { result ≡ heap_of pile.now d }
{
    let mut size: usize = 0;
    for a in 1..pile.len() / 512 + 1 {
        if block::same_deal(pile::deal_at(pile, a), d) {
            size += 1;
        }
    }
    size
}

// The first block that lies in a largest heap.
fn own_block(pile: &[u8]) -> usize
    requires { 1 ≤ blocks pile.now }
    ensures { result ≡ own_block pile.now }
{
    let mut own: usize = 1;
    let mut most = heap_of(pile, pile::deal_at(pile, 1));
    for a in 2..pile.len() / 512 + 1 {
        let size = heap_of(pile, pile::deal_at(pile, a));
        if most < size {
            most = size;
            own = a;
        }
    }
    own
}

// The first block that is not of the pile's own deal. Where all are of the first one's deal, no heap is counted.
pub fn mixed_at(pile: &[u8]) -> Option<usize>
    requires { 1 ≤ blocks pile.now }
    ensures { result ≡ placed (mixed_at pile.now) }
{
    first_stray(pile, pile::deal_at(pile, 1))?;
    let own = own_block(pile);
    first_stray(pile, pile::deal_at(pile, own))
}
