//! Queries beside what they are rewritten as. Each is a folder with a query and its items.
#![tactic(auto)]

mod commands;
mod folders;
mod rewriting;
mod sides;

use crate::folders::folders;
use crate::sides::compare;
use std::io;

fn main(rt: HostRuntime) -> io::Result<()> {
    for name in folders(&rt)?.iter() {
        println!(rt; "{name}")?;
        compare(rt, name.as_str())?;
    }
    Ok(())
}
