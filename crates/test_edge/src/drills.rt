// What no clause says: that lines are made at all, and how they look when they are written out. The
// first two draws of the seed 0 are 335903614 and 436792849.
ghost use Rattle.std.specs.Prelude.{◌≡◌, [], ◌∷◌, IfOk, IsTrue};
ghost use Rattle.std.specs.List.{list_all};
ghost use Rattle.item_schema.specs.Layout.{are_columns, has_digits, is_read};

use crate::assertions::same;
use item_drill::{Drill, drilled_bytes_have_lines, drilled_lines_have_items};
use item_schema::{Column, Kind, Schema};
use language_base::Bytes;
use line_reader::read_item;
use std::alloc::{AllocError, Global};
use std::process::Abort;
use std::test::Fail;
use value_ops::Field;

fn column(alloc: Global, name: &[u8], kind: Kind) -> Result<Column, AllocError>
    ensures { IfOk result (λ column. column ≡ record { name = name.now; kind = kind }) }
{
    let name = Bytes::from_slice(alloc, name)?;
    Ok(Column { name, kind })
}

// A stream of lines of one number.
fn one_number(alloc: Global, kind: Kind) -> Result<Box<Schema>, AllocError>
    requires digits { IsTrue (has_digits kind) }
    requires read { IsTrue (is_read kind) }
    ensures { IfOk result (λ schema.
        schema.value.columns ≡ record { name = 97 ∷ []; kind = kind } ∷ []) }
{
    let columns = vec![in alloc; column(alloc, b"a", kind)?]?;
    Ok(Box::new(alloc, Schema::new(false, columns))?)
}

fn has_header(
    rt: &impl Abort,
    alloc: Global,
    drill: &Drill<'_>,
    wanted: &[u8],
) -> Result<(), AllocError> {
    let header = drill.header(alloc)?;
    same(rt, header.as_slice(), wanted);
    Ok(())
}

fn has_line(
    rt: &impl Abort,
    alloc: Global,
    drill: &mut Drill<'_>,
    wanted: &[u8],
) -> Result<(), AllocError> {
    let line = drill.line(alloc)?;
    same(rt, line.as_slice(), wanted);
    Ok(())
}

fn draws_whole_numbers(rt: &impl Abort, alloc: Global, schema: &Schema) -> Result<(), AllocError>
    requires { IsTrue (list_all (λ c. is_read c.kind) schema.now.columns) }
{
    let mut drill = Drill::new(schema, 0);
    has_header(rt, alloc, &drill, b"")?;
    has_line(rt, alloc, &mut drill, b"747\n")?;
    has_line(rt, alloc, &mut drill, b"-438\n")
}

#[test]
fn lines_have_a_field_for_each_column(rt: HostRuntime) -> Result<(), Fail> {
    let schema = one_number(rt.alloc(), Kind::Int)?;
    draws_whole_numbers(&rt, rt.alloc(), &schema)?;
    drilled_lines_have_items();
    drilled_bytes_have_lines();
    Ok(())
}

// 335903614 is 6 above a multiple of 8.
fn is_read_as_drawn(rt: &impl Abort, alloc: Global, schema: &Schema, line: &[u8]) {
    same(rt, line, b"k6,-4.38\n".as_slice());
    let text = line.strip_suffix(b"\n").unwrap_or(line);
    let item = read_item(alloc, schema, text).ok();
    let is_drawn = item.is_some_and(|item| matches!(
        item.fields(),
        [Field::Text(_), Field::Int(-438)]
    ));
    same(rt, is_drawn, true);
}

fn draws_what_is_read(rt: &impl Abort, alloc: Global, schema: &Schema) -> Result<(), AllocError>
    requires { IsTrue (list_all (λ c. is_read c.kind) schema.now.columns) }
{
    let mut drill = Drill::new(schema, 0);
    has_header(rt, alloc, &drill, b"gauge,rain\n")?;
    let line = drill.line(alloc)?;
    is_read_as_drawn(rt, alloc, schema, line.as_slice());
    Ok(())
}

fn gauge_and_rain(alloc: Global) -> Result<Vec<Column>, AllocError>
    ensures columns { IfOk result (λ columns. IsTrue (are_columns columns.items)) }
    ensures read { IfOk result (λ columns.
        IsTrue (list_all (λ c. is_read c.kind) columns.items)) }
{
    Ok(vec![in alloc;
        column(alloc, b"gauge", Kind::Text)?,
        column(alloc, b"rain", Kind::Fixed(2))?,
    ]?)
}

#[test]
fn a_header_has_the_names(rt: HostRuntime) -> Result<(), Fail> {
    let columns = gauge_and_rain(rt.alloc())?;
    let schema = Box::new(rt.alloc(), Schema::new(true, columns))?;
    draws_what_is_read(&rt, rt.alloc(), &schema)?;
    Ok(())
}

// The digits after the point, a seed, and the line that it draws. The number of smallest units is
// the first draw modulo 2001, less 1000.
const NUMBERS: &[(u8, u64, &[u8])] = &[
    (1, 11_066_951_453_180_645_397, b"-100.0\n"),
    (2, 2_361_664_772_733_358_101, b"-0.01\n"),
    (2, 6_009_062_210_084_753_429, b"0.00\n"),
    (3, 5_799_305_323_132_178_453, b"0.005\n"),
    (3, 951_172_966_988_861_461, b"1.000\n"),
    (9, 13_315_719_062_904_590_357, b"-0.000000438\n"),
];

fn has_places(
    rt: &impl Abort,
    alloc: Global,
    places: u8,
    seed: u64,
    wanted: &[u8],
) -> Result<(), AllocError> {
    assert!(rt; places >= 1 && places <= 9);
    let schema = one_number(alloc, Kind::Fixed(places))?;
    has_line(rt, alloc, &mut Drill::new(&schema, seed), wanted)
}

#[test]
fn numbers_with_a_point_have_all_places(rt: HostRuntime) -> Result<(), Fail> {
    for &(places, seed, wanted) in NUMBERS {
        has_places(&rt, rt.alloc(), places, seed, wanted)?;
    }
    Ok(())
}
