//! The live starts of a collect, each with a follower for each key, and a default follower for
//! later keys.
#![tactic(auto)]

mod keyed;
mod keys;
mod states;
mod track;
mod tracks;

pub use keyed::Keyed;
pub use keys::Keys;
pub use track::Track;
pub use tracks::Tracks;
