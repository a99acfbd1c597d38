//! Calls of `query_rewrite`, `query_text`, `key_shards`, `key_routes` and `runner_snapshot` with
//! ample memory. They stand here because a crate with tests is proved twice.
#![tactic(auto)]

#[cfg(test)]
mod assertions;
#[cfg(test)]
mod compilation;
#[cfg(test)]
mod rewriting;
#[cfg(test)]
mod shards;
#[cfg(test)]
mod snapshots;
