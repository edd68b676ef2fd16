// Sets and groups: the leaves that planning stands on.
ghost use Rattle.std.specs.Prelude.{◌≡◌, cond, ◌-◌, ◌^◌, ◌≤◌};
ghost use Rattle.planning.specs.Sets.{inside, one_member, marks};
ghost use Rattle.planning.specs.Groups.{authorised};
ghost use Rattle.planning.specs.Inner.{Lacked, Either};

// Each person of a is in b.
pub fn inside(a: u16, b: u16) -> bool
    ensures { result ≡ inside a b }
{
    a & b == a
}

// The set s has exactly one member.
pub fn one_member(s: u16) -> bool
    ensures { result ≡ one_member s }
{
    u16::count_ones(s) == 1
}

// The members of r that the group g lacks.
pub fn lacking(r: u16, g: u16) -> u16
    ensures { Lacked r g result }
{
    r & !g
}

// The set s where it has exactly one member; else nobody.
pub fn alone(s: u16) -> u16
    ensures { result ≡ cond (one_member s) s 0 }
{
    if one_member(s) { s } else { 0 }
}

// Who is in a or in b.
pub fn either(a: u16, b: u16) -> u16
    ensures { Either a b result }
{
    a | b
}

// The row of member marks of a group.
pub fn marks(g: u16) -> [bool; 8]
    ensures { result ≡ marks g }
{
    [
        g / 1 % 2 == 1,
        g / 2 % 2 == 1,
        g / 4 % 2 == 1,
        g / 8 % 2 == 1,
        g / 16 % 2 == 1,
        g / 32 % 2 == 1,
        g / 64 % 2 == 1,
        g / 128 % 2 == 1,
    ]
}

// Some required set lies inside the group g.
pub fn authorised(required: &[u16], g: u16) -> bool
    ensures { result ≡ authorised required.now g }
{
    // no `any` over the list: its walk takes an instruction more a set, and judging does little else
    for i in 0..required.len() {
        if inside(required[i], g) {
            return true;
        }
    }
    false
}

// How many groups so many people have.
pub fn group_count(people: usize) -> usize
    requires { people ≤ 8 }
    ensures { result ≡ 2 ^ people }
{
    1usize << people
}

// The set of all the people.
pub fn everyone(people: usize) -> u16
    requires { people ≤ 8 }
    ensures { result ≡ 2 ^ people - 1 }
{
    (group_count(people) - 1) as u16
}
