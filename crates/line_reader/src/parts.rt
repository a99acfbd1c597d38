//! What a line is cut into.
ghost use Rattle.std.specs.Prelude.{◌≡◌, ◌+◌, List, ℕ, IfErr, IfOk, MatchOption, Ok, false, length};
ghost use Rattle.std.specs.Prelude.{true};
ghost use Rattle.std.specs.List.{list_any};
ghost use Rattle.line_reader.specs.CutLines.{is_break, texts_in};
ghost use Rattle.line_reader.specs.LineParts.{ArePartsOf};
ghost use Rattle.line_reader.specs.Reading.{IsStopOf, fields_of};

use crate::ItemStop;
use crate::cut_line::{commas, cut_item};
use crate::plain_line::{plain_commas, plain_item};
use item_schema::{Item, Schema};
use std::alloc::Global;

/// Which commas of a line end a field, and how many these are.
#[derive(Clone, Copy, Debug, PartialEq, Eq)]
pub(crate) enum Parts {
    /// All, as the line has no quotes.
    Plain(usize),
    /// Those outside of quotes.
    Quoted(usize),
}

impl Parts {
    pub(crate) fn commas(self) -> usize
        ensures { (line : List ℕ) → ArePartsOf line self → result + 1 ≡ length (texts_in line) }
    {
        match self {
            Parts::Plain(commas) | Parts::Quoted(commas) => commas,
        }
    }

    /// The item of a line that has these parts, a text for each column.
    pub(crate) fn item(
        self,
        alloc: Global,
        schema: &Schema,
        line: &[u8],
    ) -> Result<Item<'static>, ItemStop>
        requires parts { ArePartsOf line.now self }
        requires each { length (texts_in line.now) ≡ length schema.now.columns }
        ensures item { IfOk result (λ item.
            fields_of 1 schema.now.columns (texts_in line.now) ≡ Ok item) }
        ensures stopped { IfErr result
            (IsStopOf (fields_of 1 schema.now.columns (texts_in line.now))) }
    {
        match self {
            Parts::Plain(_) => plain_item(alloc, schema, line),
            Parts::Quoted(_) => cut_item(alloc, schema, line),
        }
    }
}

/// The parts of the line, if it has no CR and no LF.
pub(crate) fn parts_of(line: &[u8]) -> Option<Parts>
    ensures { MatchOption result (list_any is_break line.now ≡ true) (λ parts.
        (list_any is_break line.now ≡ false) × ArePartsOf line.now parts) }
{
    match plain_commas(line) {
        Some(commas) => Some(Parts::Plain(commas)),
        None => commas(line).map(Parts::Quoted),
    }
}
