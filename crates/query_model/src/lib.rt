//! Queries and what they mean: the value of a query on a word, its rate, and the rules that
//! make it one value.
#![tactic(auto)]

mod cells;
mod checked_query;
mod copies;
mod follower;
mod item_key;
mod key_columns;
mod laws;
mod query;
mod query_rates;

pub use cells::cells_of;
pub use checked_query::Checked;
pub use follower::Follower;
pub use item_key::{join_texts, joined_key, text_in};
pub use key_columns::KeyColumns;
pub use language_base::{Refusal, Rule, Span};
pub use laws::{
    a_word_has_at_most_one_value, each_word_has_a_value_or_none,
    items_have_the_same_key_where_they_agree, queries_have_values_on_their_rates,
    values_have_the_types_of_their_queries,
};
pub use query::{Query, Shape};
