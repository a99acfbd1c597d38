//! One call of the commands that report what an accepted query may surprise its writer with.
#![tactic(auto)]

mod all_hints;
mod call;
mod command;
mod early_section;
mod ending_section;
mod keyless_section;
mod marked_place;
mod shown_lines;
mod text_run;

pub use call::hints;
