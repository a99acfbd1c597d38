//! Calls of `query_templates` with ample memory. They stand here because a crate with tests is
//! proved twice.
#![tactic(auto)]

#[cfg(test)]
mod assertions;
#[cfg(test)]
mod nodes;
#[cfg(test)]
mod refusals;
#[cfg(test)]
mod terms;
