// Joining: a pile of card blocks to its secret, by one of three joiners with the same checks and the same promise. The checks are in checks.rt,
// the deal that a pile is of in heaps.rt, where its pieces lie and which are taken in places.rt, the secret in secret.rt, how a word of it is joined by
// weights in weights.rt and by differences in differences.rt; the definitions that the contracts cite are in specs/, under the functions' names.
#![tactic(auto)]

mod checks;
mod differences;
mod heaps;
mod places;
mod secret;
mod weights;

ghost use Rattle.std.specs.Prelude.{◌≡◌, length};
ghost use Rattle.answer.specs.Outcome.{outcome};
ghost use Rattle.joining.specs.Joined.{joining, joined_into};

use answer::Answer;
use checks::check_join;
use differences::ByDifferences;
use heaps::own_deal;
use places::{Sorted, taken};
use secret::{Joiner, write_secret};
use weights::{ByInverse, ByTriangle};

// Joins a pile by whatever joins the values of its pieces to a word: the secret over the front of the output, and how many words it has; or a
// refusal, which changes nothing.
fn join_as<J: Joiner>(pile: &[u8], out: &mut [u16]) -> Answer
    ensures says { outcome result ≡ joining pile.now (length out.old) }
    ensures leaves { out.new ≡ joined_into pile.now out.old }
{
    let mut table = [0u16; 560];
    let width = check_join(pile, out.len(), &mut table)?;
    let sorted = Sorted {
        pile,
        own: own_deal(pile),
        places: &table,
    };
    let places = taken(&sorted);
    let joiner = J::new(places.len());
    write_secret(pile, places, &joiner, &mut out[..width]);
    Ok(width)
}

// Joins a pile: the secret over the front of the output, and how many words it has; or a refusal, which changes nothing.
pub fn join(pile: &[u8], out: &mut [u16]) -> Answer
    ensures says { outcome result ≡ joining pile.now (length out.old) }
    ensures leaves { out.new ≡ joined_into pile.now out.old }
{
    join_as::<ByInverse>(pile, out)
}

// The same by differences alone, for a unit that has no room for the modular inverse.
pub fn join_by_differences(pile: &[u8], out: &mut [u16]) -> Answer
    ensures says { outcome result ≡ joining pile.now (length out.old) }
    ensures leaves { out.new ≡ joined_into pile.now out.old }
{
    join_as::<ByDifferences>(pile, out)
}

// The same by weights that are ready made, for a unit that joins all day.
pub fn join_by_weights(pile: &[u8], out: &mut [u16]) -> Answer
    ensures says { outcome result ≡ joining pile.now (length out.old) }
    ensures leaves { out.new ≡ joined_into pile.now out.old }
{
    join_as::<ByTriangle>(pile, out)
}
