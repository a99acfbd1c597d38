//! A form of a call.
use crate::term_place::TermPlace;

// A head word and the places of its arguments.
pub struct Form(pub &'static [u8], pub &'static [TermPlace]);
