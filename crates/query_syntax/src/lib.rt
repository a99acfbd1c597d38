//! The syntax tree of a query file: a constructor for each form of the language, with its
//! place in the text.
#![tactic(auto)]

mod expression;
mod expression_calls;
mod expression_head;
mod expression_reading;
mod head_table;
mod key;
mod key_reading;
mod laws;
mod leaf;
mod leaf_reading;
mod operator;
mod predicate;
mod predicate_head;
mod predicate_reading;
mod program;
mod program_reading;
mod query;
mod query_calls;
mod query_head;
mod query_reading;
mod rate;
mod rate_head;
mod rate_reading;
mod spans;
mod stream;
mod stream_reading;
mod syntax;

pub use expression::{Comparison, Expression};
pub use key::{Key, KeyNames};
pub use language_base::{BinaryOp, Compare, UnaryOp};
pub use laws::{one_program, streams_are_within_the_limits};
pub use leaf::{Index, Literal, Name, Number, Text};
pub use operator::{Connective, Equality, Extremum, Join, Order, Summary};
pub use predicate::Predicate;
pub use program::{Let, Main, Program};
pub use query::Query;
pub use rate::Rate;
pub use stream::{Column, Digits, Kind, Mode, Stream};
pub use syntax::{read_syntax, syntax_of};
