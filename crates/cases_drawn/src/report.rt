//! What is found in cases that are drawn one after the other.

use crate::judgment::judge;
use crate::stop::Stop;
use crate::tally::Tally;
use query_cases::{Case, Grammar, drawn_case, grammar_of, push_spelled};
use std::alloc::{AllocError, Global};
use std::{fs, io};

/// Draws `count` cases, the first by this seed and each later one by the next, and reports what is
/// found in them.
pub(crate) fn judge_cases(rt: HostRuntime, count: u64, first: u64) -> io::Result<()> {
    let text = fs::read_to_string(&rt, "grammar")?;
    match grammar_of(rt.alloc(), text.as_str())? {
        Some(grammar) => judge_drawn(rt, &grammar, count, first),
        None => println!(rt; "the grammar has a line that is no rule, or a name of none"),
    }
}

fn judge_drawn(rt: HostRuntime, grammar: &Grammar, count: u64, first: u64) -> io::Result<()> {
    let mut tally = Tally::new();
    for number in 0..count {
        let seed = first.wrapping_add(number);
        let report = report_of(rt.alloc(), grammar, seed, &mut tally)?;
        print!(rt; "{report}")?;
    }
    let summary = tally.summary(rt.alloc())?;
    print!(rt; "{summary}")
}

/// What was found in the case of the seed, if anything.
fn report_of(
    alloc: Global,
    grammar: &Grammar,
    seed: u64,
    tally: &mut Tally,
) -> Result<String, AllocError> {
    let case = drawn_case(alloc, grammar, seed)?;
    match judge(alloc, &case, tally) {
        Ok(()) => Ok(String::new(alloc)),
        Err(Stop::Memory) => Err(AllocError),
        Err(Stop::Found(finding)) => {
            tally.add_finding();
            let shown = shown(alloc, &case)?;
            format!(in alloc; "seed {seed}: {finding}\n{shown}")
        }
    }
}

/// The query and the items of the case, spelled.
fn shown(alloc: Global, case: &Case) -> Result<String, AllocError> {
    let mut text = String::from_str(alloc, "  ")?;
    push_spelled(&mut text, case.query.as_slice())?;
    text.push_str("\n  ")?;
    push_spelled(&mut text, case.items.as_slice())?;
    text.push('\n')?;
    Ok(text)
}
