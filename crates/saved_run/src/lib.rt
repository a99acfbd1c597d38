//! Runs that are saved, resumed and carried on: what follows a query is written to a snapshot, and
//! goes on from one.
#![tactic(auto)]

mod advancing;
mod laws;
mod opening;
mod resuming;
mod saving;
mod session_snapshot;
mod texts;

pub use advancing::advance;
pub use laws::{
    resumed_output_goes_on, what_is_carried_on_is_saved_after_all, what_is_saved_is_opened,
};
pub use opening::{OpenStop, Opened, open_snapshot};
pub use resuming::resume;
pub use saving::save;
pub use texts::{flaw_text, length_text};
