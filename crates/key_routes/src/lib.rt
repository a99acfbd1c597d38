//! Where the items of a stream go when the keys of a collect are divided among shards.
#![tactic(auto)]

mod hash;
mod laws;
mod route;
mod sharding;

pub use hash::shard_of_key;
pub use laws::{a_share_is_what_is_sent, items_of_one_key_go_to_one_shard, keys_can_be_divided};
pub use route::Route;
pub use sharding::Sharding;
