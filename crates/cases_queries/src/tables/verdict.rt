//! How queries are judged.

use crate::acceptance::checked;
use crate::tables::refusal::refused;
use query_resolver::CheckStop;
use std::alloc::{AllocError, Global};

/// That the query is accepted, or its refusal.
pub(crate) fn verdict(alloc: Global, query: &[u8]) -> Result<String, AllocError> {
    match checked(alloc, query) {
        Ok(_) => String::from_str(alloc, "accepted"),
        Err(CheckStop::Refused(refusal)) => refused(alloc, query, refusal),
        Err(CheckStop::Memory) => Err(AllocError),
    }
}
