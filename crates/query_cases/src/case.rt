//! One case.

/// A query and the items that it is run on.
#[derive(Drop)]
pub struct Case {
    pub query: Vec<u8>,
    pub items: Vec<u8>,
}
