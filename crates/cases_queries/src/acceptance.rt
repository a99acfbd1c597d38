//! Queries that are accepted.

use query_model::Checked;
use query_parser::ReadStop;
use query_resolver::CheckStop;
use query_syntax::read_syntax;
use std::alloc::Global;
use type_checker::check;

/// The query of a text, if it is accepted.
pub(crate) fn checked(alloc: Global, query: &[u8]) -> Result<Checked, CheckStop> {
    let program = match read_syntax(alloc, query) {
        Ok(program) => program,
        Err(ReadStop::Refused(refusal)) => return Err(CheckStop::Refused(refusal)),
        Err(ReadStop::Memory) => return Err(CheckStop::Memory),
    };
    check(alloc, &program)
}
