//! What comes of snapshots that someone has altered. Each stands in a folder, with items.
#![tactic(auto)]

mod altered;
mod folders;
mod outcomes;
mod resumed;

use crate::altered::{exchanges, fronts, other_values};
use crate::folders::folders;
use crate::outcomes::Outcomes;
use std::alloc::AllocError;
use std::{fs, io};

fn main(rt: HostRuntime) -> io::Result<()> {
    for name in folders(&rt)?.iter() {
        println!(rt; "{name}")?;
        alter(rt, name.as_str())?;
    }
    Ok(())
}

fn alter(rt: HostRuntime, folder: &str) -> io::Result<()> {
    let snapshot = contents(rt, folder, "snapshot")?;
    let items = contents(rt, folder, "items.csv")?;
    let alloc = rt.alloc();
    report(
        rt,
        "another value of a byte",
        other_values(alloc, &snapshot, &items),
    )?;
    report(rt, "a front", fronts(alloc, &snapshot, &items))?;
    report(
        rt,
        "two bytes exchanged",
        exchanges(alloc, &snapshot, &items),
    )
}

/// The bytes of a file of a folder.
fn contents(rt: HostRuntime, folder: &str, name: &str) -> io::Result<Vec<u8>> {
    let path = format!(in rt.alloc(); "{folder}/{name}")?;
    fs::read(&rt, path.as_str())
}

fn report(rt: HostRuntime, how: &str, found: Result<Outcomes, AllocError>) -> io::Result<()> {
    let found = found?;
    print!(rt; "{how}: long {}, head {}, ", found.long, found.head)?;
    print!(rt;
        "form {}, query {}, unfit {}, ",
        found.form, found.query, found.unfit
    )?;
    println!(rt; "runs {}, others {}", found.runs, found.others)
}
