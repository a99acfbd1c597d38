//! Whether two rates have the same words, and whether a rate has all words but the empty one.
//!
//! A word leads two automata, side by side, to a pair of states. All pairs to which words lead are
//! searched: the rates are equal exactly if each pair has two accepted states or none. One step of
//! the search goes from a pair to all pairs that one more item leads to:
//!
//!     pair --(follow sets)--> ways on --(a letter)--> target: the next pair
//!
//! The **ways on** are the positions that may be next in each automaton. A **letter** is the
//! positions of both automata that the items of some cell meet. The **target** of a letter along
//! ways on is the pair of the positions that are in both: one `and` in each automaton.
//!
//! There may be 4,096 pairs and 4,096 letters, so that not every letter is tried for every pair:
//! pairs with the same ways on have the same targets (`trail`); if few positions matter, the
//! letters are parted by these (`sieve`); and the targets along ways on that are much like known
//! ones are derived from the known targets (`known_sets`, `restriction`, `free`).
#![tactic(auto)]

mod addition;
mod admission;
mod alphabet;
mod equality;
mod extension;
mod free;
mod holders;
mod known_sets;
mod letters;
mod pair;
mod pattern;
mod places;
mod restriction;
mod rows;
mod search;
mod sieve;
mod stop;
mod targets;
mod trail;
mod twins;

pub use equality::{all_but_empty, same};
pub use stop::EqualStop;
