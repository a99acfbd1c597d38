//! Snapshots of what follows the words of a query: plain types that say where it stands, and their
//! bytes.
#![tactic(auto)]

mod dump;
mod entries;
mod flaw;
mod keepable;
mod keys;
mod laws;
mod node_reader;
mod number_bytes;
mod output;
mod reader;
mod reading;
mod resuming;
mod runners;
mod saved;
mod saving;
mod starts;
mod table_reader;
mod tags;
mod tracks;
mod value_bytes;
mod value_reader;

pub use dump::{NodeDump, RunnerDump};
pub use entries::Entries;
pub use flaw::{Flaw, SnapStop};
pub use keepable::Keepable;
pub use keys::KeyDumps;
pub use laws::snapshots_have_one_spelling;
pub use rate_expr::State;
pub use reading::{MAX_SNAPSHOT, read_saved};
pub use resuming::resume;
pub use runners::Runners;
pub use saved::Saved;
pub use saving::save;
pub use starts::Starts;
pub use tracks::TrackDumps;
