//! What holds of what is kept of every node and runner.
#![tactic(auto)]

mod laws;

pub use laws::{
    runners_follow_the_words_of_their_dumps, what_is_kept_stands_for_the_words_of_its_runner,
    what_stands_for_a_word_fits,
};
