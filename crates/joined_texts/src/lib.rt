//! Texts joined to one by `|`, in which each can be told again.
#![tactic(auto)]

mod joined;
mod laws;

pub use joined::Joined;
pub use laws::joined_texts_can_be_told_apart;
