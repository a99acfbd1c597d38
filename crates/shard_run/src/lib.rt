//! One call of the commands that divide a stream: the queries of shards, and where each line goes.
#![tactic(auto)]

mod call;
mod command;
mod engine;
mod judged;
mod laws;
mod pieces;
mod reply;
mod route_text;
mod router;

pub use call::shard;
pub use laws::a_shard_has_the_items_of_its_lines;
