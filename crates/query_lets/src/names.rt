//! The first wrong name of a program.
ghost use Rattle.std.specs.Prelude.{◌≡◌, ℕ, [], List, IfOk, map};
ghost use Rattle.query_syntax.specs.Plain.{plain_let, plain_program, plain_query};
ghost use Rattle.query_lets.specs.Known.{Holds, first_unknown};
ghost use Rattle.query_lets.specs.Words.{column_words, first_wrong, let_words, wrong_name};

use language_base::Span;
use query_syntax::{Column, Let, Program, Query};
use std::alloc::{AllocError, Global};
use std::collections::HashSet;

/// The place of the first word, in the order of the text, that declares a name a second time or
/// uses a name that no earlier let has.
pub fn wrong_name(alloc: Global, program: &Program) -> Result<Option<Span>, AllocError>
    ensures { IfOk result (λ wrong. wrong ≡ wrong_name (plain_program program.now)) }
{
    match wrong_column(alloc, &program.stream.columns)? {
        Some(span) => Ok(Some(span)),
        None => wrong_in_lets(alloc, &program.lets, &program.main.query),
    }
}

fn wrong_column(alloc: Global, columns: &[Column]) -> Result<Option<Span>, AllocError>
    ensures { IfOk result (λ wrong. wrong ≡ first_wrong (column_words [] columns.now)) }
{
    let mut known = HashSet::new(alloc);
    'columns: for column in columns {
        let name = column.name.bytes.as_slice();
        if known.contains(name) {
            return Ok(Some(column.name.span));
        }
        known.insert(name)?;
    }
    Ok(None)
}

fn wrong_in_lets(alloc: Global, lets: &[Let], main: &Query) -> Result<Option<Span>, AllocError>
    ensures { IfOk result (λ wrong.
        wrong ≡ first_wrong (let_words [] (map plain_let lets.now) (plain_query main.now))) }
{
    let mut known = HashSet::new(alloc);
    'lets: for one in lets {
        let name = one.name.bytes.as_slice();
        if known.contains(name) {
            return Ok(Some(one.name.span));
        }
        if let Some(span) = first_unknown(&known, &one.query) {
            return Ok(Some(span));
        }
        known.insert(name)?;
    }
    Ok(first_unknown(&known, main))
}

// The place of the first name in a query that is not known.
fn first_unknown(known: &HashSet<&[u8]>, query: &Query) -> Option<Span>
    ensures { (names : List (List ℕ)) → Holds known.now names
        → result ≡ first_unknown names (plain_query query.now) }
{
    match query {
        Query::Name(name) => {
            if known.contains(name.bytes.as_slice()) {
                None
            } else {
                Some(name.span)
            }
        }
        Query::Atom { .. } | Query::Eps { .. } => None,
        Query::Or { left, right, .. }
        | Query::Split { left, right, .. }
        | Query::Combine { left, right, .. }
        | Query::Compose { left, right, .. } => match first_unknown(known, left) {
            Some(span) => Some(span),
            None => first_unknown(known, right),
        },
        Query::Iter { operand, .. }
        | Query::Apply { operand, .. }
        | Query::Collect { body: operand, .. } => first_unknown(known, operand),
    }
}
