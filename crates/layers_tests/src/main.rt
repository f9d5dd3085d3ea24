// Plays cases on inventories and layers, and prints a line for each answer.
#![tactic(auto)]

mod limits;
mod many;
mod pile;
mod show;

use std::io;

fn main(rt: HostRuntime) -> io::Result<()> {
    limits::inventories(&rt)?;
    limits::rules(&rt)?;
    limits::sums(&rt)?;
    limits::questions(&rt)?;
    pile::checks(&rt)?;
    pile::pile(&rt)
}
