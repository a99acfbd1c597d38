//! Which columns a schema may have.
ghost use Rattle.std.specs.Prelude.{◌≡◌, ◌&&◌, nat_lt, nat_le, length};
ghost use Rattle.std.specs.List.{list_all, list_any};
ghost use Rattle.std.specs.Str.{bytes_eq};
ghost use Rattle.item_schema.specs.Layout.{are_columns, are_distinct, has_digits, is_read};

use crate::{Column, Kind};

/// The most columns of a stream.
const MAX_COLUMNS: usize = 32;

/// Whether a schema of lines may have these columns: 1 to 32 with names of their own, each of whole
/// numbers, texts, or numbers with 1 to 9 digits after the point.
pub fn are_columns(columns: &[Column]) -> bool
    ensures { result ≡ are_columns columns.now }
{
    let count = columns.len();
    0 < count && count <= MAX_COLUMNS && are_distinct(columns) && have_kinds(columns)
}

// Whether no two columns have one name.
fn are_distinct(columns: &[Column]) -> bool
    ensures { result ≡ are_distinct columns.now }
{
    let [first, rest @ ..] = columns else {
        return true;
    };
    !has_name(rest, first.name.as_slice()) && are_distinct(rest)
}

// Whether one of the columns has this name.
fn has_name(columns: &[Column], name: &[u8]) -> bool
    ensures { result ≡ list_any (λ c. bytes_eq name.now c.name) columns.now }
{
    columns.iter().any(|c| name == c.name.as_slice())
}

// Whether all columns are of kinds that are read from lines.
fn have_kinds(columns: &[Column]) -> bool
    ensures { result ≡ list_all (λ c. has_digits c.kind && is_read c.kind) columns.now }
{
    columns
        .iter()
        .all(|c| has_digits(c.kind) && is_read(c.kind))
}

fn has_digits(kind: Kind) -> bool
    ensures { result ≡ has_digits kind }
{
    match kind {
        Kind::Fixed(digits) => 1 <= digits && digits <= 9,
        _ => true,
    }
}

fn is_read(kind: Kind) -> bool
    ensures { result ≡ is_read kind }
{
    match kind {
        Kind::Int | Kind::Fixed(_) | Kind::Text => true,
        Kind::Number | Kind::Table => false,
    }
}
