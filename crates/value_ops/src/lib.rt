//! The values that a query computes with, and the operators on numbers.
#![tactic(auto)]

mod entries;
mod field;
mod laws;
mod operator;
mod rec;
mod scalar;
mod size;
mod table;
mod total;
mod value;

pub use field::Field;
pub use language_base::{BinaryOp, Bytes, UnaryOp};
pub use laws::texts_are_bytes;
pub use rec::{MAX_PARTS, Rec};
pub use scalar::{Scalar, sums_fit_or_overflow};
pub use size::{size_of_answer, size_of_value};
pub use table::{Table, absent_keys_have_no_value};
pub use total::totals_continue;
pub use value::{Value, ValueType};
