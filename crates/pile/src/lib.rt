// A pile of card blocks: its words, and its blocks in order (SCOPE 5). The definitions that the contracts cite are in specs/, under the
// functions' names.
#![tactic(auto)]

ghost use Rattle.std.specs.Prelude.{◌≡◌, ◌≤◌, length};
ghost use Rattle.answer.specs.Outcome.{checked, done};
ghost use Rattle.answer.specs.Checks.{first_fail};
ghost use Rattle.pile.specs.Blocks.{blocks, In, rest_from, word, deal_at};
ghost use Rattle.pile.specs.Lines.{every_block};

use answer::Checked;
use block::DealWords;

// What is left of the pile where block a begins: its first 512 bytes are block a.
fn rest_from(pile: &[u8], a: usize) -> &[u8]
    requires { In pile.now a }
    ensures is { result.now ≡ rest_from pile.now a }
    ensures long { 512 ≤ length result.now }
{
    &pile[512 * (a - 1)..]
}

// Word i of block a.
pub fn word(pile: &[u8], a: usize, i: usize) -> u16
    requires { (1 ≤ a) × (a ≤ blocks pile.now) × (1 ≤ i) × (i ≤ 256) }
    ensures { result ≡ word pile.now a i }
{
    block::word(rest_from(pile, a), i)
}

// Which deal block a is of.
pub fn deal_at(pile: &[u8], a: usize) -> DealWords
    requires { In pile.now a }
    ensures { result ≡ deal_at pile.now a }
{
    block::deal_words(rest_from(pile, a))
}

// UNREAD, CHECK and HEADER of one block after the other: the check of each is handed the pile from that block to the end (SCOPE 5).
pub fn check_blocks(pile: &[u8]) -> Checked
    ensures { checked result ≡ first_fail (every_block pile.now) (done 0) }
{
    for a in 1..pile.len() / 512 + 1 {
        block::check_block(rest_from(pile, a), a)?;
    }
    Ok(())
}
