//! A query runs over lines: an answer to each, or what a drill reports of them.
#![tactic(auto)]

mod drill_loop;
mod laws;
mod line_texts;
mod replier;
mod reply_loop;
mod run_loop;
mod session;
mod status;
mod writer;

pub use drill_loop::drill;
pub use laws::{
    items_take_two_bytes_each, output_goes_on_between_lines, what_goes_on_after_nothing_is_plain,
};
pub use line_texts::push_reply;
pub use replier::Replier;
pub use reply_loop::reply_to_lines;
pub use run_loop::{run, run_on};
pub use session::{Reply, Session};
pub use status::Status;
pub use writer::{end, refuse, report};
