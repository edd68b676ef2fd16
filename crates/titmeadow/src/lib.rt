// The functions for firmware, exported for C (include/titmeadow.h). Each is a thin function over one proved function.
#![tactic(auto)]

mod desks;
mod judging;
mod sets;

ghost use Rattle.std.specs.Prelude.{◌≡◌, cond, map, ◌≤◌, length, take};
ghost use Rattle.answer.specs.Outcome.{outcome};
ghost use Rattle.lists.specs.Over.{over};
ghost use Rattle.planning.specs.Policy.{policy_of};
ghost use Rattle.planning.specs.Planned.{planned};
ghost use Rattle.block.specs.Open.{opening};
ghost use Rattle.dealing.specs.Deal.{deal_from};
ghost use Rattle.dealing.specs.Dealt.{dealing, dealt_into};
ghost use Rattle.joining.specs.Joined.{joining, joined_into};
ghost use Rattle.salvage.specs.Pile.{salvaging, salvaged_pile, salvaged_list};
ghost use Rattle.adding.specs.Sum.{pair_of};
ghost use Rattle.adding.specs.Adding.{adding, sum_into};
ghost use Rattle.packing.specs.Key.{packing, unpacking, unpacked_into};
ghost use Rattle.key.specs.Dealt.{key_deal};
ghost use Rattle.key.specs.Joined.{joining_key, joined_key_into};
ghost use Rattle.titmeadow.specs.Said.{said, seven, groups_into, head_into, words_into};
ghost use Rattle.titmeadow.specs.Inner.{number_of};

use adding::Pair;
use answer::Answer;
use dealing::Deal;
pub use desks::{
    titmeadow_desk_ask, titmeadow_desk_close, titmeadow_desk_hand_in, titmeadow_desk_open,
};
pub use judging::titmeadow_judge;
use planning::{Policy, Rows};
pub use sets::titmeadow_deal_by_sets;

// Number 0: a result, its value in a; else a refusal and its two places.
#[repr(C)]
#[derive(Clone, Copy)]
pub struct Said {
    pub number: usize,
    pub a: usize,
    pub b: usize,
}

// An answer as three numbers.
impl From<Answer> for Said {
    ghost from_gives = { λ x s. s ≡ said (outcome x) };

    fn from(x: Answer) -> Said {
        match x {
            Ok(a) => Said { number: 0, a, b: 0 },
            Err(r) => Said {
                number: usize::from(r.kind),
                a: r.a,
                b: r.b,
            },
        }
    }
}

// What a mark is worth.
fn worth(mark: bool, v: u16) -> u16
    ensures { (result ≡ cond mark v 0) × (result ≤ v) }
{
    if mark { v } else { 0 }
}

// The group whose row of member marks this is.
fn group_of(row: [bool; 8]) -> u16
    ensures { result ≡ number_of row }
{
    worth(row[0], 1)
        + worth(row[1], 2)
        + worth(row[2], 4)
        + worth(row[3], 8)
        + worth(row[4], 16)
        + worth(row[5], 32)
        + worth(row[6], 64)
        + worth(row[7], 128)
}

// The groups of the first k rows over the front of `groups`.
fn write_groups(rows: &Rows, k: usize, groups: &mut [u16])
    requires { (k ≤ 70) × (length rows.now ≡ 70) × (length groups.old ≡ 70) }
    ensures { groups.new ≡ over (map number_of (take k rows.now)) groups.old }
{
    for j in 0..k {
        groups[j] = group_of(rows[j]);
    }
}

// k, and the group of each piece in the first k of the 70 places lent.
#[unsafe(no_mangle)]
pub extern "C" fn titmeadow_plan(
    people: usize,
    required: &[u16],
    forbidden: &[u16],
    groups: &mut [u16; 70],
) -> Said
    ensures says { result ≡ said (planned (policy_of people required.now forbidden.now)) }
    ensures leaves { groups.new ≡ groups_into (policy_of people required.now forbidden.now) groups.old }
{
    let policy = Policy {
        people,
        required,
        forbidden,
    };
    let mut rows = [[false; 8]; 70];
    match planning::plan_into(policy, &mut rows) {
        Ok(k) => {
            write_groups(&rows, k, groups);
            Said::from(Answer::Ok(k))
        }
        Err(r) => Said::from(Answer::Err(r)),
    }
}

// One holder's card into the front of `card`: the number of blocks.
#[unsafe(no_mangle)]
pub extern "C" fn titmeadow_deal(
    people: usize,
    required: &[u16],
    forbidden: &[u16],
    deal: usize,
    year: usize,
    holder: usize,
    secret: &[u16],
    random: &[u16],
    card: &mut [u8],
) -> Said
    ensures says { result ≡ said (dealing (deal_from (policy_of people required.now forbidden.now) deal year secret.now random.now) holder (length card.old)) }
    ensures leaves { card.new ≡ dealt_into (deal_from (policy_of people required.now forbidden.now) deal year secret.now random.now) holder card.old }
{
    let policy = Policy {
        people,
        required,
        forbidden,
    };
    let deal = Deal {
        policy,
        number: deal,
        year,
        secret,
        random,
    };
    Said::from(dealing::deal(deal, holder, card))
}

// The secret of a pile into the front of `secret`: the number of its words.
#[unsafe(no_mangle)]
pub extern "C" fn titmeadow_join(pile: &[u8], secret: &mut [u16]) -> Said
    ensures says { result ≡ said (joining pile.now (length secret.old)) }
    ensures leaves { secret.new ≡ joined_into pile.now secret.old }
{
    Said::from(joining::join(pile, secret))
}

// The same by differences alone.
#[unsafe(no_mangle)]
pub extern "C" fn titmeadow_join_by_differences(pile: &[u8], secret: &mut [u16]) -> Said
    ensures says { result ≡ said (joining pile.now (length secret.old)) }
    ensures leaves { secret.new ≡ joined_into pile.now secret.old }
{
    Said::from(joining::join_by_differences(pile, secret))
}

// The same by weights that are ready made.
#[unsafe(no_mangle)]
pub extern "C" fn titmeadow_join_by_weights(pile: &[u8], secret: &mut [u16]) -> Said
    ensures says { result ≡ said (joining pile.now (length secret.old)) }
    ensures leaves { secret.new ≡ joined_into pile.now secret.old }
{
    Said::from(joining::join_by_weights(pile, secret))
}

// Words 1 to 7 of the first block of a pile into the seven places lent; the result is 7.
#[unsafe(no_mangle)]
pub extern "C" fn titmeadow_open(pile: &[u8], head: &mut [u16; 7]) -> Said
    ensures says { result ≡ said (seven (opening pile.now)) }
    ensures leaves { head.new ≡ head_into pile.now head.old }
{
    match block::open(pile) {
        Ok(h) => {
            *head = [
                h.mark, h.deal, h.holder, h.people, h.pieces, h.width, h.piece,
            ];
            Said::from(Answer::Ok(7))
        }
        Err(r) => Said::from(Answer::Err(r)),
    }
}

// The lent pile salvaged where it stands, block and word of each word rebuilt into the front of `list`: how many they are.
#[unsafe(no_mangle)]
pub extern "C" fn titmeadow_salvage(pile: &mut [u8], list: &mut [u16]) -> Said
    ensures says { result ≡ said (salvaging pile.old (length list.old)) }
    ensures mends { pile.new ≡ salvaged_pile pile.old (length list.old) }
    ensures lists { list.new ≡ salvaged_list pile.old list.old }
{
    Said::from(salvage::salvage(pile, list))
}

// The ten words of a key into the ten places lent; the result is 10.
#[unsafe(no_mangle)]
pub extern "C" fn titmeadow_pack(key: &[u8], words: &mut [u16; 10]) -> Said
    ensures says { result ≡ said (packing key.now) }
    ensures leaves { words.new ≡ words_into key.now words.old }
{
    match packing::pack(key) {
        Ok(ten) => {
            *words = ten;
            Said::from(Answer::Ok(10))
        }
        Err(r) => Said::from(Answer::Err(r)),
    }
}

// The key of ten words into the front of `key`; the result is 16.
#[unsafe(no_mangle)]
pub extern "C" fn titmeadow_unpack(words: &[u16], key: &mut [u8]) -> Said
    ensures says { result ≡ said (unpacking words.now (length key.old)) }
    ensures leaves { key.new ≡ unpacked_into words.now key.old }
{
    Said::from(packing::unpack(words, key))
}

// One holder's card of a key into the front of `card`: the number of blocks.
#[unsafe(no_mangle)]
pub extern "C" fn titmeadow_deal_key(
    people: usize,
    required: &[u16],
    forbidden: &[u16],
    deal: usize,
    year: usize,
    holder: usize,
    key: &[u8],
    random: &[u16],
    card: &mut [u8],
) -> Said
    ensures says { result ≡ said (dealing (key_deal (policy_of people required.now forbidden.now) deal year key.now random.now) holder (length card.old)) }
    ensures leaves { card.new ≡ dealt_into (key_deal (policy_of people required.now forbidden.now) deal year key.now random.now) holder card.old }
{
    let policy = Policy {
        people,
        required,
        forbidden,
    };
    Said::from(key::deal_key(policy, deal, year, holder, key, random, card))
}

// The key of a pile into the front of `key`; the result is 16.
#[unsafe(no_mangle)]
pub extern "C" fn titmeadow_join_key(pile: &[u8], key: &mut [u8]) -> Said
    ensures says { result ≡ said (joining_key pile.now (length key.old)) }
    ensures leaves { key.new ≡ joined_key_into pile.now key.old }
{
    Said::from(key::join_key(pile, key))
}

// The sum of two blocks under a new deal number and year into the front of `block`; the result is 1, a number of blocks.
#[unsafe(no_mangle)]
pub extern "C" fn titmeadow_add(
    one: &[u8],
    two: &[u8],
    deal: usize,
    year: usize,
    block: &mut [u8],
) -> Said
    ensures says { result ≡ said (adding one.now two.now (pair_of deal year) (length block.old)) }
    ensures leaves { block.new ≡ sum_into one.now two.now (pair_of deal year) block.old }
{
    let new = Pair { number: deal, year };
    Said::from(adding::add(one, two, new, block))
}
