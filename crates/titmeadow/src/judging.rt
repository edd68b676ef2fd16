// Another maker's holding list judged, exported for C, and a verdict as three numbers.
ghost use Rattle.std.specs.Prelude.{◌≡◌};
ghost use Rattle.planning.specs.Policy.{policy_of};
ghost use Rattle.holdings.specs.Holdings.{list_of};
ghost use Rattle.holdings.specs.Judged.{judging, judged};
ghost use Rattle.titmeadow.specs.Said.{told};

use crate::Said;
use answer::{Answer, Refusal};
use holdings::{Holdings, Verdict};
use planning::Policy;

// The first group for which the list fails, 0 where it suits, and on which side: 1 with too few pieces, 2 with enough.
impl From<Result<Verdict, Refusal>> for Said {
    ghost from_gives = { λ x s. s ≡ told (judged x) };

    fn from(x: Result<Verdict, Refusal>) -> Said {
        match x {
            Ok(Verdict::Suits) => Said {
                number: 0,
                a: 0,
                b: 0,
            },
            Ok(Verdict::Few(g)) => Said {
                number: 0,
                a: g,
                b: 1,
            },
            Ok(Verdict::Many(g)) => Said {
                number: 0,
                a: g,
                b: 2,
            },
            Err(r) => Said::from(Answer::Err(r)),
        }
    }
}

// Whether a holding list suits the policy: the first group for which it does not, or 0, and on which side.
#[unsafe(no_mangle)]
pub extern "C" fn titmeadow_judge(
    people: usize,
    required: &[u16],
    forbidden: &[u16],
    list_people: usize,
    pieces: usize,
    needed: usize,
    marks: &[u8],
) -> Said
    ensures { result ≡ told (judging (policy_of people required.now forbidden.now) (list_of list_people pieces needed marks.now)) }
{
    let policy = Policy {
        people,
        required,
        forbidden,
    };
    let list = Holdings {
        people: list_people,
        pieces,
        needed,
        marks,
    };
    Said::from(holdings::judge(policy, list))
}
