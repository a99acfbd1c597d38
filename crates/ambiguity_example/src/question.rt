//! The rules that forbid a word with two readings.

use symbolic_nfa::Nfa;

/// A rule, with the automata of the rates that it asks about.
#[derive(Clone, Copy)]
pub enum Ask<'a> {
    /// No word is in both rates.
    Choice(&'a Nfa, &'a Nfa),
    /// No word splits in two ways into a word of the first rate and then one of the second.
    Split(&'a Nfa, &'a Nfa),
    /// No word factors in two ways into words of the rate.
    Iter(&'a Nfa),
}
