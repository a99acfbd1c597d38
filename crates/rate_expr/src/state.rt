//! The states of an automaton.

/// The state after a word.
#[derive(Clone, Copy, Debug, PartialEq, Eq)]
pub enum State {
    /// After the empty word.
    Initial,
    /// After any other word: the positions at which some path that the word spells ends, as a mask.
    At(u128),
}
