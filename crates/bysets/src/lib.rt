// Dealing by the required sets (SCOPE 3.2): every minimal one has a deal by itself, with a piece for each of its members.
// The definitions that the contracts cite are in specs/, in SCOPE's terms and order.
#![tactic(auto)]

mod card;

ghost use Rattle.std.specs.Prelude.{◌≡◌, ◌≤◌, length};
ghost use Rattle.answer.specs.Outcome.{outcome, done};
ghost use Rattle.answer.specs.Checks.{first_fail};
ghost use Rattle.answer.specs.Lent.{left};
ghost use Rattle.field.specs.Parts.{coefficients};
ghost use Rattle.minimal.specs.Minimal.{sets_with};
ghost use Rattle.dealing.specs.Deal.{asked_of};
ghost use Rattle.dealing.specs.Given.{deal_in};
ghost use Rattle.dealing.specs.Dealt.{card_lines};
ghost use Rattle.bysets.specs.Cards.{sizes, card_by};
ghost use Rattle.bysets.specs.Dealt.{set_dealing, set_dealt_into};
ghost use Rattle.bysets.specs.Inner.{Proper};

use answer::Answer;
use dealing::Deal;

// The coefficients that a word of the secret has in all sets: in each one fewer than its members.
fn coefficients(sets: &[u16]) -> usize
    requires { Proper 8 sets.now }
    ensures { (result ≡ coefficients (sizes sets.now)) × (result ≤ 4096) }
{
    let mut total = 0;
    for &set in sets {
        total += minimal::members(set, 16) - 1;
    }
    total
}

// Refusals 8, 25 and 9 to 12, or the holder's card, by the sets.
fn deal_sets(deal: Deal, holder: usize, sets: &[u16], out: &mut [u8]) -> Answer
    requires people_bound { (deal_in deal).policy.people ≤ 8 }
    requires proper { Proper (deal_in deal).policy.people sets.now }
    ensures says { let d = deal_in deal.entry in
        let blocks = length (sets_with sets.now holder (length sets.now)) in
        let each = coefficients (sizes sets.now) in
        let lines = card_lines (asked_of d holder) each d.secret d.random blocks (length out.old) in
        outcome result ≡ first_fail lines (done blocks) }
    ensures leaves { let d = deal_in deal.entry in
        let card = card_by (asked_of d holder) sets.now d.secret d.random in
        out.new ≡ left (outcome result) card out.old }
{
    let each = coefficients(sets);
    dealing::check_inputs(deal, holder, each)?;
    card::write_card(deal, holder, sets, out)
}

// One holder's card by the minimal required sets: a refusal, 1 to 12, 22 or 25, or how many blocks it has, written over the front of what is lent.
pub fn deal_by_sets(deal: Deal, holder: usize, out: &mut [u8]) -> Answer
    ensures says { outcome result ≡ set_dealing (deal_in deal.entry) holder (length out.old) }
    ensures leaves { out.new ≡ set_dealt_into (deal_in deal.entry) holder out.old }
{
    planning::check(deal.policy)?;
    let sets = minimal::minimal_sets(deal.policy.people, deal.policy.required);
    deal_sets(deal, holder, &sets.sets[..sets.count], out)
}
