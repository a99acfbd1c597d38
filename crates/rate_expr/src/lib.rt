//! Rates, which are regular expressions over predicates on items, and the positions at which their
//! words are read.
#![tactic(auto)]

mod construction;
mod joins;
mod laws;
mod links;
pub mod masks;
mod part;
mod positions;
mod rate;
mod shared_preds;
mod state;

pub use laws::{
    each_word_is_in_or_not, one_automaton_of_a_rate, one_state_after_a_word, sets_spell_their_rate,
};
pub use positions::Positions;
pub use rate::{MAX_POSITIONS, Rate};
pub use shared_preds::SharedPreds;
pub use state::State;
