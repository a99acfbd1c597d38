//! Takes steps of a large automaton, or makes a decision on it, as often as asked: what this costs.

use crate::crowd::crowd;
use crate::work::Work;
use rate_equal::EqualStop;
use std::alloc::AllocError;
use std::io;
use symbolic_nfa::Nfa;

/// The words are a kind of work, how many positions the automaton has, for how many numbers each of
/// its two columns is tested, and how often the work is done.
pub(crate) fn work_on_rates(rt: HostRuntime, words: &[String]) -> io::Result<()> {
    let Some(work) = Work::named(words.get(0).map_or("", |word| word.as_str())) else {
        return println!(rt; "step, extends, disjoint, one_split, one_factoring or same");
    };
    match crowd(rt.alloc(), number(words, 1), number(words, 2))? {
        Some(nfa) => work_on(rt, &nfa, work, number(words, 3)),
        None => println!(rt; "too many positions or cells"),
    }
}

fn work_on(rt: HostRuntime, nfa: &Nfa, work: Work, times: u32) -> io::Result<()> {
    let (positions, cells) = (nfa.count(), nfa.cells().count());
    print!(rt; "{positions} positions, {cells} cells: ")?;
    match work.done(rt.alloc(), nfa, times) {
        Ok(answer) => println!(rt; "{answer}"),
        Err(EqualStop::Reach) => println!(rt; "too many pairs of states"),
        Err(EqualStop::Memory) => Err(AllocError.into()),
    }
}

fn number(words: &[String], at: usize) -> u32 {
    words
        .get(at)
        .and_then(|word| word.as_str().parse::<u32>().ok())
        .unwrap_or(1)
}
