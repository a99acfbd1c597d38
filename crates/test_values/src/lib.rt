//! Calls of `language_base` and `value_ops` with ample memory, where a run of a program shows less.
//! They stand here because a crate with tests is proved twice.
#![tactic(auto)]

#[cfg(test)]
mod assertions;
#[cfg(test)]
mod base;
#[cfg(test)]
mod tables;
