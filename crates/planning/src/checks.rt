// Refusals 1 to 6 and 22: the first place at which a list breaks a rule, and the checks in their order.
ghost use Rattle.std.specs.Prelude.{◌≡◌, [], ◌∷◌, ◌≤◌, eqb, position, nat_le};
ghost use Rattle.answer.specs.Outcome.{checked, done};
ghost use Rattle.answer.specs.Checks.{first_fail};
ghost use Rattle.planning.specs.Sets.{inside, one_member};
ghost use Rattle.planning.specs.Given.{lists_of};
ghost use Rattle.planning.specs.Planned.{clash, list_lines};

use crate::Policy;
use crate::sets::{group_count, inside, one_member};
use answer::{Checked, Kind};

// The first set whose number is as great as that of the groups, or greater: somebody is in it whose number is greater than that of the people.
fn first_from(size: usize, list: &[u16]) -> Option<usize>
    ensures { result ≡ position (nat_le size) list.now }
{
    list.iter().position(|&s| size <= s as usize)
}

// The first empty set.
fn first_empty(list: &[u16]) -> Option<usize>
    ensures { result ≡ position (eqb 0) list.now }
{
    list.iter().position(|&s| s == 0)
}

// The first set with exactly one member.
fn first_lone(list: &[u16]) -> Option<usize>
    ensures { result ≡ position one_member list.now }
{
    list.iter().position(|&s| one_member(s))
}

// The first forbidden set around the set s.
fn first_around(s: u16, forbidden: &[u16]) -> Option<usize>
    ensures { result ≡ position (inside s) forbidden.now }
{
    forbidden.iter().position(|&f| inside(s, f))
}

// Refusals 1 to 5 and 22.
pub fn check_lists(policy: Policy) -> Checked
    ensures { checked result ≡ first_fail (list_lines (lists_of policy.entry)) (done 0) }
{
    let Policy {
        people,
        required,
        forbidden,
    } = policy;
    if people == 0 {
        return answer::refuse(Kind::People, 0, 0);
    }
    if 8 < people {
        return answer::refuse(Kind::People, 0, 0);
    }
    if 256 < required.len() {
        return answer::refuse(Kind::LongList, 1, 0);
    }
    if 256 < forbidden.len() {
        return answer::refuse(Kind::LongList, 2, 0);
    }
    let size = group_count(people);
    if let Some(i) = first_from(size, required) {
        return answer::refuse(Kind::Stranger, 1, i + 1);
    }
    if let Some(i) = first_from(size, forbidden) {
        return answer::refuse(Kind::Stranger, 2, i + 1);
    }
    if required.is_empty() {
        return answer::refuse(Kind::Nobody, 0, 0);
    }
    if let Some(i) = first_empty(required) {
        return answer::refuse(Kind::Open, i + 1, 0);
    }
    if let Some(i) = first_lone(required) {
        return answer::refuse(Kind::Lone, i + 1, 0);
    }
    Ok(())
}

// Refusal 6.
pub fn check_clash(required: &[u16], forbidden: &[u16]) -> Checked
    ensures { checked result ≡ first_fail (clash required.now forbidden.now ∷ []) (done 0) }
{
    for (i, &set) in required.iter().enumerate() {
        if let Some(j) = first_around(set, forbidden) {
            return answer::refuse(Kind::Clash, i + 1, j + 1);
        }
    }
    Ok(())
}
