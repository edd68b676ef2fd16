// Dealing by the required sets, exported for C.
ghost use Rattle.std.specs.Prelude.{◌≡◌, length};
ghost use Rattle.planning.specs.Policy.{policy_of};
ghost use Rattle.dealing.specs.Deal.{deal_from};
ghost use Rattle.bysets.specs.Dealt.{set_dealing, set_dealt_into};
ghost use Rattle.titmeadow.specs.Said.{said};

use crate::Said;
use dealing::Deal;
use planning::Policy;

// One holder's card by the minimal required sets over the front of `card`: its number of blocks.
#[unsafe(no_mangle)]
pub extern "C" fn titmeadow_deal_by_sets(
    people: usize,
    required: &[u16],
    forbidden: &[u16],
    deal: usize,
    year: usize,
    holder: usize,
    secret: &[u16],
    random: &[u16],
    card: &mut [u8],
) -> Said
    ensures says { result ≡ said (set_dealing (deal_from (policy_of people required.now forbidden.now) deal year secret.now random.now) holder (length card.old)) }
    ensures leaves { card.new ≡ set_dealt_into (deal_from (policy_of people required.now forbidden.now) deal year secret.now random.now) holder card.old }
{
    let policy = Policy {
        people,
        required,
        forbidden,
    };
    let deal = Deal {
        policy,
        number: deal,
        year,
        secret,
        random,
    };
    Said::from(bysets::deal_by_sets(deal, holder, card))
}
