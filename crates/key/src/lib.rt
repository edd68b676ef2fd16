// Keys: dealing one as the secret of its ten words, and joining a pile to one. The definitions that the contracts cite are in specs/.
#![tactic(auto)]

ghost use Rattle.std.specs.Prelude.{◌≡◌, length};
ghost use Rattle.answer.specs.Outcome.{outcome};
ghost use Rattle.planning.specs.Given.{lists_of};
ghost use Rattle.dealing.specs.Dealt.{dealing, dealt_into};
ghost use Rattle.key.specs.Dealt.{key_deal};
ghost use Rattle.key.specs.Joined.{joining_key, joined_key_into};

use answer::Answer;
use dealing::Deal;
use planning::Policy;

// Deals one holder's card of a key. What is not of 16 bytes is dealt as a secret of no words.
pub fn deal_key(
    policy: Policy,
    number: usize,
    year: usize,
    holder: usize,
    key: &[u8],
    random: &[u16],
    out: &mut [u8],
) -> Answer
    ensures says { let d = key_deal (lists_of policy.entry) number year key.now random.now in
        outcome result ≡ dealing d holder (length out.old) }
    ensures leaves { let d = key_deal (lists_of policy.entry) number year key.now random.now in
        out.new ≡ dealt_into d holder out.old }
{
    let packed = packing::pack(key);
    let secret: &[u16] = match &packed {
        Ok(words) => words,
        Err(_) => &[],
    };
    let deal = Deal {
        policy,
        number,
        year,
        secret,
        random,
    };
    dealing::deal(deal, holder, out)
}

// Joins a pile to a key: its 16 bytes over the front of the output; or a refusal, which changes nothing.
pub fn join_key(pile: &[u8], out: &mut [u8]) -> Answer
    ensures says { outcome result ≡ joining_key pile.now (length out.old) }
    ensures leaves { out.new ≡ joined_key_into pile.now out.old }
{
    let mut words = [0u16; 16];
    let w = joining::join(pile, &mut words)?;
    packing::unpack(&words[..w], out)
}
