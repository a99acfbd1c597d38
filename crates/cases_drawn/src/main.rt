//! Draws hostile cases, runs each in memory, and reports what is wrong in a run.
#![tactic(auto)]

mod answers;
mod bound;
mod call;
mod engines;
mod judgment;
mod lines;
mod memory;
mod refusals;
mod report;
mod stop;
mod tally;
mod texts;
mod transcripts;

use crate::report::judge_cases;
use std::{env, io};

/// The words are how many cases are drawn, and the seed of the first.
fn main(rt: HostRuntime) -> io::Result<()> {
    let words: Vec<String> = env::args(&rt)?.skip(1).collect(rt.alloc())?;
    println!(rt; "hostile")?;
    judge_cases(rt, number(&words, 0), number(&words, 1))
}

fn number(words: &[String], at: usize) -> u64 {
    words
        .get(at)
        .and_then(|word| word.as_str().parse::<u64>().ok())
        .unwrap_or(1)
}
