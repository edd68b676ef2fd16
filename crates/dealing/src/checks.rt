// Refusals 8, 25 and 9 to 11: the deal number, the year, the holder, the secret and the randomness, in this order.
ghost use Rattle.std.specs.Prelude.{◌≡◌, ◌≤◌, position};
ghost use Rattle.answer.specs.Outcome.{checked, done};
ghost use Rattle.answer.specs.Checks.{first_fail};
ghost use Rattle.lists.specs.Places.{outside};
ghost use Rattle.prime.specs.Prime.{too_large};
ghost use Rattle.dealing.specs.Deal.{asked_of};
ghost use Rattle.dealing.specs.Given.{deal_in};
ghost use Rattle.dealing.specs.Dealt.{input_lines};

use crate::Deal;
use answer::{Checked, Kind};

// The first word above 32748.
fn first_large(words: &[u16]) -> Option<usize>
    ensures { result ≡ position too_large words.now }
{
    words.iter().position(|&word| 32748 < word)
}

// v is outside 1 to high.
fn outside(high: usize, v: usize) -> bool
    ensures { result ≡ outside high v }
{
    !(1..=high).contains(&v)
}

// These refusals, where each word of the secret wants so many coefficients.
pub fn check_inputs(deal: Deal, holder: usize, each: usize) -> Checked
    requires { each ≤ 4096 }
    ensures { let d = deal_in deal.entry in
        checked result ≡ first_fail (input_lines (asked_of d holder) each d.secret d.random) (done 0) }
{
    let Deal {
        policy,
        number,
        year,
        secret,
        random,
    } = deal;
    if outside(32748, number) {
        return answer::refuse(Kind::Deal, 0, 0);
    }
    if 32748 < year {
        return answer::refuse(Kind::Year, 0, 0);
    }
    if outside(policy.people, holder) {
        return answer::refuse(Kind::Holder, 0, 0);
    }
    if outside(16, secret.len()) {
        return answer::refuse(Kind::Secret, 0, 0);
    }
    if let Some(i) = first_large(secret) {
        return answer::refuse(Kind::Secret, i + 1, 0);
    }
    if random.len() != secret.len() * each {
        return answer::refuse(Kind::Random, 0, 0);
    }
    if let Some(i) = first_large(random) {
        return answer::refuse(Kind::Random, i + 1, 0);
    }
    Ok(())
}
