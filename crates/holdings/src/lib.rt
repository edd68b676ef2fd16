// Judging another maker's holdings (SCOPE 2.1): whether a holding list suits a policy. Planning's refusals, then ROWS.
#![tactic(auto)]

mod holders;
mod list;

ghost use Rattle.std.specs.Prelude.{◌≡◌, ◌≤◌};
ghost use Rattle.planning.specs.Given.{lists_of};
ghost use Rattle.holdings.specs.Holdings.{list_in};
ghost use Rattle.holdings.specs.Judged.{wrong_rows, verdict, told, judging, judged};
ghost use Rattle.holdings.specs.Laws.{InOrder};

use answer::{Kind, Refusal};
use holders::Side;
pub use list::{Holdings, Verdict};
use planning::Policy;

// The list is out of order for so many people.
fn wrong_rows(people: usize, list: Holdings) -> bool
    requires { people ≤ 8 }
    ensures { result ≡ wrong_rows people (list_in list.entry) }
{
    if list.people != people {
        return true;
    }
    if list.pieces == 0 || 70 < list.pieces {
        return true;
    }
    if list.needed == 0 || list.pieces < list.needed {
        return true;
    }
    if list.marks.len() != people * list.pieces {
        return true;
    }
    holders::first_bad(list.marks).is_some()
}

// The verdict on a list in order.
fn judge_list(required: &[u16], people: usize, list: Holdings) -> Verdict
    requires { (people ≤ 8) × InOrder people (list_in list) }
    ensures { told result ≡ verdict people required.now (list_in list.entry) }
{
    let sets = holders::holder_sets(list);
    for g in 1..planning::group_count(people) {
        match holders::way(required, &sets, list.pieces, list.needed, g) {
            Some(Side::Few) => return Verdict::Few(g),
            Some(Side::Many) => return Verdict::Many(g),
            None => {}
        }
    }
    Verdict::Suits
}

// Whether the holding list suits the policy.
pub fn judge(policy: Policy, list: Holdings) -> Result<Verdict, Refusal>
    ensures { judged result ≡ judging (lists_of policy.entry) (list_in list.entry) }
{
    planning::check(policy)?;
    if wrong_rows(policy.people, list) {
        return answer::refuse(Kind::Rows, 0, 0);
    }
    Ok(judge_list(policy.required, policy.people, list))
}
