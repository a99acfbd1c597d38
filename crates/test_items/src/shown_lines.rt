// What no clause says: that the lines of items and the plainest items of cells are made at all.
// Expected lines are worked out by hand.
ghost use Rattle.value_ops.specs.Types.{IsType};

use crate::assertions::same;
use crate::fixtures::two_columns;
use item_lines::{is_shown, shown_line, shown_lines_are_read_to_their_items};
use item_schema::{Item, Kind, Schema};
use language_base::Bytes;
use line_reader::{
    lines_are_cut_outside_quotes, lines_are_skipped_for_their_texts,
    lines_have_items_of_their_columns, lines_write_their_items, read_item,
};
use plain_items::plain_item;
use predicate_cells::Cells;
use predicates::{Pred, Preds};
use std::alloc::{AllocError, Global};
use std::test::Fail;
use value_ops::{Field, Scalar, Table, Value, ValueType};

fn is_line(line: &Option<Bytes>, wanted: Option<&[u8]>) -> bool {
    match (line, wanted) {
        (Some(line), Some(wanted)) => line.as_slice() == wanted,
        (None, None) => true,
        _ => false,
    }
}

// Whether the item of the line is shown so.
fn shows(alloc: Global, schema: &Schema, line: &[u8], wanted: Option<&[u8]>) -> Result<bool, Fail> {
    let item = Box::new(alloc, read_item(alloc, schema, line)?)?;
    let shown = shown_line(alloc, schema, &item)?;
    Ok(is_line(&shown, wanted))
}

// No texts are shown, nor characters that move the cursor.
const LINES: &[(&[u8], Option<&[u8]>)] = &[
    (b"+007.5,north", Some(b"7.50,north")),
    (b"-0.05,north east", Some(b"-0.05,north east")),
    (b"0, a ", Some(b"0.00, a ")),
    (b"0,caf\xC3\xA9", Some(b"0.00,caf\xC3\xA9")),
    (b"-92233720368547758.08,x", Some(b"-92233720368547758.08,x")),
    (b"12,", Some(b"12.00,\"\"")),
    (b"0,\"a,b\"", Some(b"0.00,\"a,b\"")),
    (b"0,5\" pipe", Some(b"0.00,\"5\"\" pipe\"")),
    (b"0,\xEF\xBB\xBFa", Some(b"0.00,\"\xEF\xBB\xBFa\"")),
    (b"0,a\tb", None),
    (b"0,\x1B[2J", None),
    (b"0,\xC2\x9B2J", None),
    (b"0,\xFF", None),
];

#[test]
fn an_item_is_shown_as_a_person_types_it(rt: HostRuntime) -> Result<(), Fail> {
    let schema = two_columns(rt.alloc(), Kind::Fixed(2), Kind::Text)?;
    for &(line, wanted) in LINES {
        let is_shown_so = shows(rt.alloc(), &schema, line, wanted)?;
        same(&rt, (line, is_shown_so), (line, true));
    }
    shown_lines_are_read_to_their_items();
    Ok(())
}

#[test]
fn a_line_of_96_bytes_is_shown(rt: HostRuntime) {
    let bytes = [b'x'; 97];
    assert!(rt; is_shown(b""));
    assert!(rt; is_shown(&bytes[..96]));
    assert!(rt; !is_shown(&bytes));
}

fn one_entry(alloc: Global) -> Result<Box<Table>, AllocError> {
    let mut table = Box::new(alloc, Table::new(alloc))?;
    table.push(b"a\"b", Scalar::Number(7))?;
    Ok(table)
}

// Whether the value that a query reads is shown so.
fn value_shows(alloc: Global, ty: ValueType, value: Value, wanted: &[u8]) -> Result<bool, Fail>
    requires { IsType ty }
{
    let schema = Schema::derived(alloc, ty)?;
    let item = Box::new(alloc, Item::from_field(Field::Val(value)))?;
    let shown = shown_line(alloc, &schema, &item)?;
    Ok(is_line(&shown, Some(wanted)))
}

fn scalar_shows(alloc: Global, scalar: Scalar, wanted: &[u8]) -> Result<bool, Fail> {
    value_shows(alloc, ValueType::Number, Value::Scalar(scalar), wanted)
}

#[test]
fn a_value_is_shown_as_an_answer(rt: HostRuntime) -> Result<(), Fail> {
    for (scalar, wanted) in [
        (Scalar::Number(-7), b"-7".as_slice()),
        (Scalar::Overflow, b"overflow"),
        (Scalar::DivZero, b"divzero"),
    ] {
        same(&rt, scalar_shows(rt.alloc(), scalar, wanted)?, true);
    }
    Ok(())
}

#[test]
fn a_table_is_shown_as_an_answer(rt: HostRuntime) -> Result<(), Fail> {
    let table = Value::Table(Box::into_inner(one_entry(rt.alloc())?));
    let is_shown_so = value_shows(rt.alloc(), ValueType::Table, table, b"{\"a\\x22b\":7}")?;
    same(&rt, is_shown_so, true);
    Ok(())
}

fn add(alloc: Global, pred: Pred, preds: &mut Preds) -> Result<(), AllocError> {
    let pred = Box::new(alloc, pred)?;
    preds.add(&pred)
}

// Below -7, from 10 to 20, and a text.
fn add_tests(alloc: Global, preds: &mut Preds) -> Result<(), AllocError> {
    add(alloc, Pred::Lt(0, -7), preds)?;
    add(alloc, Pred::Between(0, 10, 20), preds)?;
    add(
        alloc,
        Pred::EqText(1, Bytes::from_slice(alloc, b"north")?),
        preds,
    )
}

// The cells of these tests; none where they do not fit.
fn cells_under(alloc: Global, schema: &Schema) -> Result<Option<Box<Cells>>, Fail> {
    let mut preds = Preds::new(alloc);
    add_tests(alloc, &mut preds)?;
    if !preds.fit(schema) {
        return Ok(None);
    }
    Ok(Some(Box::new(alloc, Cells::new(alloc, schema, &preds)?)?))
}

// The plainest item of the line's cell.
fn plainest(alloc: Global, cells: &Cells, line: &[u8]) -> Result<Box<Item<'static>>, Fail> {
    let item = Box::new(alloc, read_item(alloc, cells.schema(), line)?)?;
    Ok(Box::new(alloc, plain_item(alloc, cells, cells.of(&item))?)?)
}

// Whether it is shown so.
fn is_plainest(alloc: Global, cells: &Cells, line: &[u8], wanted: &[u8]) -> Result<bool, Fail> {
    let plain = plainest(alloc, cells, line)?;
    let shown = shown_line(alloc, cells.schema(), &plain)?;
    Ok(is_line(&shown, Some(wanted)))
}

const PLAINEST: &[(&[u8], &[u8])] = &[
    (b"-100,south", b"-8,other"),
    (b"9,north", b"0,north"),
    (b"-7,", b"0,other"),
    (b"20,NORTH", b"10,other"),
    (b"9223372036854775807,x", b"21,other"),
    (b"-9223372036854775808,north", b"-8,north"),
];

#[test]
fn the_plainest_item_has_numbers_near_zero(rt: HostRuntime) -> Result<(), Fail> {
    let schema = two_columns(rt.alloc(), Kind::Int, Kind::Text)?;
    let cells = cells_under(rt.alloc(), &schema)?.ok_or("the tests do not fit")?;
    for &(line, wanted) in PLAINEST {
        let is_so = is_plainest(rt.alloc(), &cells, line, wanted)?;
        same(&rt, (line, is_so), (line, true));
    }
    Ok(())
}

#[test]
fn laws_of_lines(_rt: HostRuntime) {
    lines_write_their_items();
    lines_are_skipped_for_their_texts();
    lines_have_items_of_their_columns();
    lines_are_cut_outside_quotes();
}
