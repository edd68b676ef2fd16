// What is dealt, and what all blocks of a holder's card have in their labels.
ghost use Rattle.std.specs.Prelude.{◌≡◌, ◌≤◌, length};
ghost use Rattle.dealing.specs.Deal.{asked_of};
ghost use Rattle.dealing.specs.Inner.{shared_label};
ghost use Rattle.dealing.specs.Given.{deal_in};

use block::Label;
use planning::Policy;

// SCOPE 3: one deal, the five that all its cards are made from.
#[derive(Clone, Copy)]
pub struct Deal<'a> {
    pub policy: Policy<'a>,
    pub number: usize,
    pub year: usize,
    pub secret: &'a [u16],
    pub random: &'a [u16],
}

// What the labels of a holder's blocks share: the scheme's mark, how many pieces there are, the piece and the set are each block's own, and 0 here.
pub fn shared_label(deal: Deal, holder: usize) -> Label
    requires { let d = deal_in deal in
        (d.number ≤ 32748) × (d.year ≤ 32748) × (d.policy.people ≤ 8) × (holder ≤ 8) × (length d.secret ≤ 16) }
    ensures { let d = deal_in deal.entry in
        result ≡ shared_label (asked_of d holder) (length d.secret) }
{
    Label {
        mark: 0,
        number: deal.number as u16,
        holder: holder as u16,
        people: deal.policy.people as u16,
        pieces: 0,
        width: deal.secret.len() as u16,
        piece: 0,
        year: deal.year as u16,
        set: 0,
    }
}
