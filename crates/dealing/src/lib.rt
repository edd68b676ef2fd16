// Dealing: one holder's card (SCOPE 3 and 4; refusals 1 to 12, 22 and 25).
// The definitions that the contracts cite are in specs/, in SCOPE's terms and order.
#![tactic(auto)]

mod asked;
mod card;
mod checks;

ghost use Rattle.std.specs.Prelude.{◌≡◌, ◌-◌, ◌≤◌, length};
ghost use Rattle.answer.specs.Outcome.{outcome, done};
ghost use Rattle.answer.specs.Checks.{first_fail};
ghost use Rattle.answer.specs.Lent.{left};
ghost use Rattle.dealing.specs.Deal.{asked_of, card_over};
ghost use Rattle.dealing.specs.Given.{deal_in};
ghost use Rattle.dealing.specs.Dealt.{card_lines, dealing, dealt_into};
ghost use Rattle.dealing.specs.Inner.{held_in};

use answer::Answer;
pub use asked::{Deal, shared_label};
pub use card::write_piece;
pub use checks::check_inputs;
use planning::Rows;

// Refusals 8, 25 and 9 to 12, or the holder's card, by the rows of the k pieces that were planned.
fn deal_planned(deal: Deal, holder: usize, k: usize, rows: &Rows, out: &mut [u8]) -> Answer
    requires { ((deal_in deal).policy.people ≤ 8) × (1 ≤ k) × (k ≤ 70) }
    ensures says { let d = deal_in deal.entry in
        let blocks = length (held_in rows.now holder k) in
        let lines = card_lines (asked_of d holder) (k - 1) d.secret d.random blocks (length out.old) in
        outcome result ≡ first_fail lines (done blocks) }
    ensures leaves { let d = deal_in deal.entry in
        let card = card_over (asked_of d holder) k d.secret d.random (held_in rows.now holder k) in
        out.new ≡ left (outcome result) card out.old }
{
    checks::check_inputs(deal, holder, k - 1)?;
    card::write_card(deal, holder, k, rows, out)
}

// One holder's card: a refusal, 1 to 12, 22 or 25, or how many blocks it has, written over the front of what is lent.
pub fn deal(deal: Deal, holder: usize, out: &mut [u8]) -> Answer
    ensures says { outcome result ≡ dealing (deal_in deal.entry) holder (length out.old) }
    ensures leaves { out.new ≡ dealt_into (deal_in deal.entry) holder out.old }
{
    let mut rows = [[false; 8]; 70];
    let k = planning::plan_into(deal.policy, &mut rows)?;
    deal_planned(deal, holder, k, &rows, out)
}
