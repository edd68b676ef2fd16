// Planning: from a policy, a number of people and two lists of sets, to pieces and holdings (SCOPE 2, refusals 1 to 6 and 22).
#![tactic(auto)]

mod checks;
mod groups;
mod sets;
mod table;

ghost use Rattle.std.specs.Prelude.{◌≡◌, [], IfOk};
ghost use Rattle.answer.specs.Outcome.{outcome, outcome_by, checked, done};
ghost use Rattle.answer.specs.Checks.{first_fail};
ghost use Rattle.planning.specs.Groups.{rows_of};
ghost use Rattle.planning.specs.Given.{lists_of};
ghost use Rattle.planning.specs.Planned.{plan_lines, planned, planned_rows};

use answer::{Answer, Checked, Refusal};
pub use sets::{authorised, group_count, inside, marks};
pub use table::{Plan, Rows};

// What is planned for: how many people there are, the required sets and the forbidden ones.
#[derive(Clone, Copy)]
pub struct Policy<'a> {
    pub people: usize,
    pub required: &'a [u16],
    pub forbidden: &'a [u16],
}

// Planning's refusals alone.
pub fn check(policy: Policy) -> Checked
    ensures { checked result ≡ first_fail (plan_lines (lists_of policy.entry)) (done 0) }
{
    checks::check_lists(policy)?;
    checks::check_clash(policy.required, policy.forbidden)
}

// Planning into a lent table of empty rows: k with the rows of the groups, or a refusal, which leaves the table as it was.
pub fn plan_into(policy: Policy, rows: &mut Rows) -> Answer
    requires { rows.old ≡ rows_of [] }
    ensures says { outcome result ≡ planned (lists_of policy.entry) }
    ensures table { rows.new ≡ planned_rows (lists_of policy.entry) }
{
    check(policy)?;
    Ok(groups::fill(policy.required, policy.people, rows))
}

// Planning: k and the table of rows, or a refusal.
pub fn plan(policy: Policy) -> Result<Plan, Refusal>
    ensures says { outcome_by (λ plan. plan.pieces) result ≡ planned (lists_of policy.entry) }
    ensures table { IfOk result (λ plan. plan.rows ≡ planned_rows (lists_of policy.entry)) }
{
    let mut rows = [[false; 8]; 70];
    let pieces = plan_into(policy, &mut rows)?;
    Ok(Plan { pieces, rows })
}
