// The terms of a text of at most 100 bytes.
use query_tokens::read_tokens;
use query_trees::{Tree, read_trees};
use std::alloc::Global;

pub fn terms_of(alloc: Global, text: &[u8]) -> Option<Vec<Tree>> {
    if 100 < text.len() {
        return None;
    }
    let tokens = read_tokens(alloc, text).ok()?;
    read_trees(alloc, &tokens, 100).ok()
}
