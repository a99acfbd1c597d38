//! A collect in shards of its keys: the query of a shard, the mask, and the law by which the
//! tables of the shards are merged to that of the collect.
#![tactic(auto)]

mod boxes;
mod laws;
mod masks;
mod parts;
mod stop;

pub use laws::{
    a_collect_is_the_merge_of_its_shards, a_shard_has_the_entries_of_its_keys,
    a_share_has_all_that_its_keys_have, an_entry_changes_by_its_items_alone,
    keys_stand_by_their_first_items, shards_and_masks_keep_the_rules,
};
pub use masks::mask_of;
pub use parts::part_of;
pub use stop::PartStop;
