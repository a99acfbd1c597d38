//! Calls of `query_forms`, `query_parser` and `query_syntax` with ample memory, where a run of a
//! program shows less. They stand here because a crate with tests is proved twice.
#![tactic(auto)]

#[cfg(test)]
mod assertions;
#[cfg(test)]
mod files;
#[cfg(test)]
mod forms;
#[cfg(test)]
mod syntax;
