//! What parts of a run cost by themselves. The first word chooses one: `lines FILE` reads and
//! splits lines, `sums FILE KIND ..` reads items and writes answers without a query, and
//! `rates WORK POSITIONS TESTS TIMES` takes steps of automata and makes decisions on them.
#![tactic(auto)]

mod crowd;
mod decision;
mod lines;
mod rates;
mod sums;
mod work;

use crate::lines::count_lines;
use crate::rates::work_on_rates;
use crate::sums::sum_items;
use std::alloc::{AllocError, Global};
use std::{env, io};

/// What is done if there are no words: each part once, on something small.
const SMALL: [&str; 3] = [
    "lines -",
    "sums items text hundredths int",
    "rates step 8 3 1000",
];

fn main(rt: HostRuntime) -> io::Result<()> {
    let words: Vec<String> = env::args(&rt)?.skip(1).collect(rt.alloc())?;
    if words.is_empty() {
        run_small(rt)
    } else {
        run(rt, &words)
    }
}

fn run_small(rt: HostRuntime) -> io::Result<()> {
    for line in SMALL {
        let words = words_of(rt.alloc(), line)?;
        run(rt, &words)?;
    }
    Ok(())
}

fn words_of(alloc: Global, line: &str) -> Result<Vec<String>, AllocError> {
    let mut words = Vec::new(alloc);
    for word in line.split(' ') {
        words.push(String::from_str(alloc, word)?)?;
    }
    Ok(words)
}

fn run(rt: HostRuntime, words: &[String]) -> io::Result<()> {
    let [part, rest @ ..] = words else {
        return Ok(());
    };
    match part.as_str() {
        "lines" => count_lines(rt, rest),
        "sums" => sum_items(rt, rest),
        "rates" => work_on_rates(rt, rest),
        _ => println!(rt; "the first word is lines, sums or rates"),
    }
}
