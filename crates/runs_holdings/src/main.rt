// Judges holding lists, good and bad, and prints what comes out: that the list suits, the first group for which it does not and on which
// side, or the refusal.
#![tactic(auto)]

mod holding_lists;
mod show;

use std::io;

fn main(rt: HostRuntime) -> io::Result<()> {
    let mut to = rt.stdout();
    holding_lists::two_of_three(&mut to)?;
    holding_lists::first_policy(&mut to)?;
    holding_lists::one_each(&mut to)?;
    holding_lists::our_own(&mut to)?;
    holding_lists::rows(&mut to)?;
    holding_lists::planning_first(&mut to)
}
