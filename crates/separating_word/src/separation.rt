//! Lines of items that distinguish two queries.
ghost use Rattle.std.specs.Prelude.{◌≡◌, IfOk, IfSome, IsTrue};
ghost use Rattle.std.specs.List.{list_all};
ghost use Rattle.item_lines.specs.Lines.{is_shown};
ghost use Rattle.query_model.specs.Monitors.{Monitor, monitor_of};
ghost use Rattle.separating_word.specs.Findings.{HasValueAlone};
ghost use Rattle.separating_word.specs.Separations.{IsShortest, Separates};

use crate::line::lines_apart;
use crate::line_value::{Finding, finding_on};
use language_base::Bytes;
use query_model::Checked;
use std::alloc::{AllocError, Global};

/// One of two queries.
#[derive(Clone, Copy, Debug, PartialEq, Eq)]
pub enum Side {
    Left,
    Right,
}

/// Lines of items: the query on the side has a value on their word, and the other query has none.
#[derive(Drop)]
pub struct Separation {
    pub side: Side,
    pub lines: Vec<Bytes>,
}

/// A shortest word of items of the queries' stream that is in the rate of only one of them, if that
/// one has a value on it. None is found if each such word has more than eight items, or the search
/// takes more than about 262,144 steps; if the rates have too many positions or their predicates
/// too many cells; or if the line of an item is too long or cannot be shown.
pub fn distinguish(
    alloc: Global,
    left: &Checked,
    right: &Checked,
) -> Result<Option<Separation>, AllocError>
    ensures found { IfOk result (λ found.
        IfSome found (Separates (monitor_of left.now) (monitor_of right.now))) }
    ensures shortest { IfOk result (λ found.
        IfSome found (IsShortest (monitor_of left.now) (monitor_of right.now))) }
{
    let Some(lines) = lines_apart(alloc, left, right)? else {
        return Ok(None);
    };
    distinguished(alloc, left, right, lines)
}

// The same for these lines. Both queries are asked for their values on them.
fn distinguished(
    alloc: Global,
    left: &Checked,
    right: &Checked,
    lines: Vec<Bytes>,
) -> Result<Option<Separation>, AllocError>
    requires { IsTrue (list_all is_shown lines.items) }
    ensures found { IfOk result (λ found.
        IfSome found (Separates (monitor_of left.now) (monitor_of right.now))) }
    ensures lines { IfOk result (λ found. IfSome found (λ separation. separation.lines ≡ lines)) }
{
    let on_left = finding_on(alloc, left, &lines)?;
    let on_right = finding_on(alloc, right, &lines)?;
    match side_of(on_left, on_right) {
        Some(side) => Ok(Some(Separation { side, lines })),
        None => Ok(None),
    }
}

// The side on which there is a value, if there is none on the other.
fn side_of(left: Finding, right: Finding) -> Option<Side>
    ensures { IfSome result (HasValueAlone left right) }
{
    match (left, right) {
        (Finding::Value, Finding::NoValue) => Some(Side::Left),
        (Finding::NoValue, Finding::Value) => Some(Side::Right),
        _ => None,
    }
}
