// A key of sixteen bytes as ten words of 13 bits, and back. Both are one number, the highest digit first (specs/Digits.antt): it is made from the
// digits of the one and cut into those of the other. The bytes are the library's, the words are in number.rt.
#![tactic(auto)]

mod number;

ghost use Rattle.std.specs.Prelude.{◌≡◌, length, IfOk};
ghost use Rattle.answer.specs.Outcome.{done, outcome, outcome_by, checked};
ghost use Rattle.answer.specs.Checks.{first_fail};
ghost use Rattle.lists.specs.Places.{placed};
ghost use Rattle.packing.specs.Key.{most, first_wrong, not_key, packing, packed_words, unpacking, unpacked_into};

use answer::{Answer, Checked, Kind, Refusal};
use number::{number_of_words, ten_words};

// Packs a key: its ten words are those of its number.
pub fn pack(key: &[u8]) -> Result<[u16; 10], Refusal>
    ensures says { outcome_by (λ _. 10) result ≡ packing key.now }
    ensures words { IfOk result (λ words. words ≡ packed_words key.now) }
{
    match <[u8; 16]>::try_from(key) {
        Ok(bytes) => Ok(ten_words(u128::from_be_bytes(bytes))),
        Err(_) => answer::refuse(Kind::Secret, 0, 0),
    }
}

// The ten words that packing comes to, whatever the key: its own, and ten zeros where it is refused.
pub fn packed_words(key: &[u8]) -> [u16; 10]
    ensures { result ≡ packed_words key.now }
{
    match pack(key) {
        Ok(words) => words,
        Err(_) => [0; 10],
    }
}

// The most that word i can be.
fn most(i: usize) -> u16
    ensures { result ≡ most i }
{
    if i == 1 { 2047 } else { 8191 }
}

// The first wrong word of ten, if there is one.
fn first_wrong(words: &[u16]) -> Option<usize>
    requires { length words.now ≡ 10 }
    ensures { result ≡ placed (first_wrong words.now) }
{
    (1..11).find(|i| most(*i) < words[*i - 1])
}

// NOTKEY: the words are not ten, or one of them is too large.
fn check_words(words: &[u16]) -> Checked
    ensures { checked result ≡ first_fail (not_key words.now) (done 0) }
{
    if words.len() != 10 {
        return answer::refuse(Kind::NotKey, 0, 0);
    }
    match first_wrong(words) {
        Some(i) => answer::refuse(Kind::NotKey, i, 0),
        None => Ok(()),
    }
}

// Unpacks ten words into the first sixteen bytes of out: those of their number.
pub fn unpack(words: &[u16], out: &mut [u8]) -> Answer
    ensures says { outcome result ≡ unpacking words.now (length out.old) }
    ensures leaves { out.new ≡ unpacked_into words.now out.old }
{
    check_words(words)?;
    if out.len() < 16 {
        return answer::refuse(Kind::Room, 16, 0);
    }
    let bytes = number_of_words(words).to_be_bytes();
    out[..16].copy_from_slice(&bytes);
    Ok(16)
}
