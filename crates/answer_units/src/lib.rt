//! How many digits after the point the answers of a query have, known before the first item.
#![tactic(auto)]

mod answer;
mod laws;
mod names;
mod query;
mod scale;
mod units;

pub use answer::answer_units;
pub use laws::only_columns_give_answers_digits;
pub use units::Units;
