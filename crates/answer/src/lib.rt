// What every call answers: a result, or a refusal with its kind and two places. Contracts speak of it through `outcome`
// (specs/Outcome.antt), which gives the number and the places of SCOPE 6 for each case.
#![tactic(auto)]

ghost use Rattle.std.specs.Prelude.{◌≡◌};
ghost use Rattle.answer.specs.Outcome.{number, refusal};

// The kinds of refusal, each with its number in the table of SCOPE 6.2. None has the number 7, which is vacant.
#[derive(Clone, Copy, PartialEq, Eq)]
pub enum Kind {
    People = 1,
    LongList = 2,
    Stranger = 3,
    Nobody = 4,
    Open = 5,
    Clash = 6,
    Deal = 8,
    Holder = 9,
    Secret = 10,
    Random = 11,
    Room = 12,
    Torn = 13,
    Long = 14,
    Unread = 15,
    Check = 16,
    Header = 17,
    Mixed = 18,
    Conflict = 19,
    Short = 20,
    Text = 21,
    Lone = 22,
    NotKey = 23,
    Unlike = 24,
    Year = 25,
    NoClient = 26,
    Busy = 27,
    Full = 28,
    Closed = 29,
    Rows = 30,
}

// A refusal: its kind and its two places, each 0 where SCOPE 6.2 names none.
#[derive(Clone, Copy, PartialEq, Eq)]
pub struct Refusal {
    pub kind: Kind,
    pub a: usize,
    pub b: usize,
}

// A result and its number (k, blocks, w), or a refusal.
pub type Answer = Result<usize, Refusal>;

// What a check answers: nothing, or a refusal.
pub type Checked = Result<(), Refusal>;

// The number of a kind, by SCOPE 6.2.
impl From<Kind> for usize {
    ghost from_gives = { λ k n. n ≡ number k };

    fn from(k: Kind) -> usize {
        k as usize
    }
}

// The refusal of this kind at these places, whatever the result would be.
pub fn refuse<T>(kind: Kind, a: usize, b: usize) -> Result<T, Refusal>
    ensures { result ≡ Err (refusal kind a b) }
{
    Err(Refusal { kind, a, b })
}
