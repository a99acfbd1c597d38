//! Calls of `rate_expr`, `symbolic_nfa`, `ambiguity_check` and `rate_equal` with ample memory. They
//! stand here because a crate with tests is proved twice.
#![tactic(auto)]

#[cfg(test)]
mod assertions;
#[cfg(test)]
mod automata;
#[cfg(test)]
mod equality;
#[cfg(test)]
mod fixtures;
#[cfg(test)]
mod many_cells;
#[cfg(test)]
mod one_number;
#[cfg(test)]
mod rates;
#[cfg(test)]
mod readings;
