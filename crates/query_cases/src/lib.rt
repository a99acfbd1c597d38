//! Cases, each a query and the items that it is run on: as tables spell them, and as numbers draw
//! them by a grammar. It serves tests alone: the stored output of the programs that go through its
//! cases holds it to what it gives, and no clause does.
#![tactic(auto)]

mod case;
mod damage;
mod draft;
mod draws;
mod grammar;
mod grammar_file;
mod spelled;
mod spelling;

pub use case::Case;
pub use draft::drawn_case;
pub use grammar::Grammar;
pub use grammar_file::grammar_of;
pub use spelled::{NumberedCase, spelled_cases};
pub use spelling::push_spelled;
