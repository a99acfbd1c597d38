//! A collect whose table stays empty, since every item that it reads is one of every key's.
#![tactic(auto)]

mod collects;
mod own_items;

pub use collects::empty_table;
