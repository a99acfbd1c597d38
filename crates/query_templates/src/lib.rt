//! The terms of a plain file, from those of a file with templates.
#![tactic(auto)]

mod copies;
mod definition;
mod expansion;
mod extent;
mod file;
mod filling;
mod kinds;
mod language;
mod laws;
mod measure;
mod misfit;
mod names;
mod origin;
mod origin_laws;
mod place;
mod places;
mod refusal;
mod standing;
mod stop;
mod template;
mod term;
mod torn;
mod uses;

pub use file::expanded_file;
pub use laws::a_file_without_definitions_is_plain;
pub use origin::{Origin, Use, origins};
pub use origin_laws::{a_plain_file_came_of_no_use, origins_are_of_the_plain_nodes};
pub use places::node_places;
pub use refusal::{TemplateCause, TemplateRefusal};
pub use stop::TemplateStop;
