//! Calls of `sqre_run`, `stream_run` and `explain_run`, and the bytes that they write where something
//! fails or a run is long. They stand here because a crate with tests is proved twice.
#![tactic(auto)]

#[cfg(test)]
mod assertions;
#[cfg(test)]
mod commands;
#[cfg(test)]
mod compilation;
#[cfg(test)]
mod faults;
#[cfg(test)]
mod fixtures;
#[cfg(test)]
mod long_runs;
#[cfg(test)]
mod output_order;
#[cfg(test)]
mod reasons;
#[cfg(test)]
mod refusals;
#[cfg(test)]
mod runs;
#[cfg(test)]
mod sessions;
