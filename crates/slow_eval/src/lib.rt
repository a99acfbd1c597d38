//! An engine that searches all readings: after each item it searches the value of the query on the
//! whole word anew. It is slow, and says what a faster engine has to answer.
#![tactic(auto)]

mod collection;
mod derived_stream;
mod follower;
mod keyed_answers;
mod keys;
mod leaf_answers;
mod pieces;
mod places;
mod rates;
mod search;
mod slow;

pub use search::{answer_on, answers_on_fronts};
pub use slow::Slow;
