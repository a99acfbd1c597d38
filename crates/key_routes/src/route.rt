//! Where an item goes.

/// Where an item goes.
#[derive(Clone, Copy, Debug, PartialEq, Eq)]
pub enum Route {
    /// To all shards.
    All,
    /// To one shard, counted from 0.
    One(u32),
}
