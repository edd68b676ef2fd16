// Reading a policy text: line by line, each line for itself (SCOPE 7.1, refusal 21).
#![tactic(auto)]

ghost use Rattle.std.specs.Prelude.{◌≡◌, List, [], ℕ, ◌-◌, ◌≤◌, ◌++◌, ◌∷◌, take};
ghost use Rattle.planning.specs.Sets.{worth as Sets·worth};
ghost use Rattle.policy.specs.Policy.{members, people_in, line_says, read_policy, Keeps, Holds};
ghost use Rattle.policy.specs.Inner.{sets_in, KeepsMore, Adds};

use answer::{Kind, Refusal};

// What a line behind the first gives: a required set, or a forbidden set.
#[derive(Clone, Copy, PartialEq, Eq)]
pub enum Entry {
    Need(u16),
    Bar(u16),
}

// The first 257 sets of a list, with zeros behind them, and how many they are: a list of 257 sets is too long already. It is no vector of the
// kit, since a policy text is Copy.
#[derive(Clone, Copy)]
pub struct Sets {
    pub sets: [u16; 257],
    pub count: usize,
}

// What a policy text says: the number of people, and the two lists.
#[derive(Clone, Copy)]
pub struct PolicyText {
    pub people: usize,
    pub required: Sets,
    pub forbidden: Sets,
}

impl Sets {
    // The sets without the zeros behind them. A count above 257, which reading never leaves, is taken for 257.
    pub fn as_slice(&self) -> &[u16]
        ensures value { result.now ≡ take self.now.count self.now.sets }
        ensures kept { (sets : List ℕ) → Keeps sets self.now → result.now ≡ take 257 sets }
    {
        &self.sets[..self.count.min(257)]
    }
}

// What the person is worth whose digit is this byte.
fn worth(digit: u8) -> u16
    requires { (49 ≤ digit) × (digit ≤ 57) }
    ensures { (result ≡ Sets·worth (digit - 48)) × (result ≤ 256) }
{
    1 << (digit - b'1')
}

// The set of the members that the line names behind its word.
fn read_members(line: &[u8]) -> Option<u16>
    ensures { result ≡ members 48 0 line.now }
{
    let mut rest = line;
    let mut last = b'0';
    let mut set = 0;
    while let [b' ', digit, more @ ..] = rest {
        if *digit <= last || b'9' < *digit {
            return None;
        }
        set += worth(*digit);
        last = *digit;
        rest = more;
    }
    match rest {
        [b'\n'] => Some(set),
        _ => None,
    }
}

// The number of people that the first line gives.
fn read_people(line: &[u8]) -> Option<usize>
    ensures { result ≡ people_in line.now }
{
    match line.strip_prefix(b"people ")? {
        [digit @ b'0'..=b'9', b'\n'] => Some(usize::from(*digit - b'0')),
        _ => None,
    }
}

// What a line behind the first says.
fn read_line(line: &[u8]) -> Option<Entry>
    ensures { result ≡ line_says line.now }
{
    if let Some(names) = line.strip_prefix(b"need") {
        read_members(names).map(|set| Entry::Need(set))
    } else {
        let names = line.strip_prefix(b"bar")?;
        read_members(names).map(|set| Entry::Bar(set))
    }
}

// No sets.
fn no_sets() -> Sets
    ensures { Keeps [] result }
{
    Sets {
        sets: [0; 257],
        count: 0,
    }
}

// One set more, where there is a place for it.
fn keep(list: &mut Sets, set: u16)
    ensures adds { sets_in list.new ≡ take 257 (sets_in list.old ++ set ∷ []) }
    ensures keeps { KeepsMore set list.old list.new }
{
    if list.count < 257 {
        list.sets[list.count] = set;
        list.count += 1;
    }
}

impl PolicyText {
    // One set more in its list.
    fn add(&mut self, entry: Entry)
        ensures { Adds entry self.old self.new }
    {
        match entry {
            Entry::Need(set) => keep(&mut self.required, set),
            Entry::Bar(set) => keep(&mut self.forbidden, set),
        }
    }
}

// Reads a policy text.
pub fn read_policy(text: &[u8]) -> Result<PolicyText, Refusal>
    ensures { Holds (read_policy text.now) result }
{
    if 16384 < text.len() {
        return answer::refuse(Kind::Text, 0, 0);
    }
    let mut lines = text.split_inclusive(|b| *b == b'\n');
    let Some(people) = lines.next().and_then(read_people) else {
        return answer::refuse(Kind::Text, 1, 0);
    };
    let mut read = PolicyText {
        people,
        required: no_sets(),
        forbidden: no_sets(),
    };
    // The number of the line: the first is read, and the library numbers from 0.
    let mut number = 2;
    for line in lines {
        let Some(entry) = read_line(line) else {
            return answer::refuse(Kind::Text, number, 0);
        };
        read.add(entry);
        number += 1;
    }
    Ok(read)
}
