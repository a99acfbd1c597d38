//! Lines that are read by `csv`'s reader and to items.

use csv::{ByteRecord, Error, ReaderBuilder};
use io_edge::{LazyFile, Line, Lines, Source};
use item_schema::{Column, Item, Kind, Schema, are_columns};
use language_base::Bytes;
use line_reader::{ItemStop, read_item};
use std::alloc::{AllocError, Global};
use std::fmt::Write;
use std::io;

/// Of longer fields only the lengths are reported.
const SHORT: usize = 60;

/// The most lines that are read.
const LINES: u32 = 1_000;

/// Reports the fields of each line as `csv` reads it, and whether the item has the same.
pub(crate) fn read_lines(rt: HostRuntime, path: &str) -> io::Result<()> {
    let mut source = LazyFile::new(rt, rt.alloc(), path)?;
    read_source(rt, &mut source)
}

fn read_source<S: Source>(rt: HostRuntime, source: &mut S) -> io::Result<()> {
    let mut lines = Lines::new(rt.alloc())?;
    read_each(rt, &mut lines, source)
}

fn read_each<S: Source>(rt: HostRuntime, lines: &mut Lines, source: &mut S) -> io::Result<()> {
    for number in 1..LINES {
        let Ok(Line::Whole(line)) = lines.next(source) else {
            return Ok(());
        };
        print_report(rt, number, line)?;
    }
    Ok(())
}

fn print_report(rt: HostRuntime, number: u32, line: &[u8]) -> io::Result<()> {
    let text = report(rt.alloc(), line)?;
    println!(rt; "{number}: {text}")
}

fn report(alloc: Global, line: &[u8]) -> Result<String, AllocError> {
    match csv_row(alloc, line) {
        Ok(row) => report_of(alloc, &row, line),
        Err(_) => Err(AllocError),
    }
}

/// The first row of the line by `csv`, or one without fields if there is none.
fn csv_row(alloc: Global, line: &[u8]) -> Result<ByteRecord, Error> {
    let mut reader = ReaderBuilder::new()
        .has_headers(false)
        .flexible(true)
        .from_reader(alloc, line);
    let mut row = ByteRecord::new(alloc);
    reader.read_byte_record(&mut row)?;
    Ok(row)
}

/// The fields of the row, and whether the item of the line has the same.
fn report_of(alloc: Global, row: &ByteRecord, line: &[u8]) -> Result<String, AllocError> {
    let mut text = String::new(alloc);
    push_fields(&mut text, row)?;
    text.push_str(verdict(alloc, row, line)?)?;
    Ok(text)
}

fn push_fields(text: &mut String, row: &ByteRecord) -> Result<(), AllocError> {
    for index in 0..row.len() {
        text.push_str("|")?;
        push_field(text, row.get(index).unwrap_or(&[]))?;
    }
    text.push_str("| ")
}

fn push_field(text: &mut String, field: &[u8]) -> Result<(), AllocError> {
    if field.len() > SHORT {
        return match write!(text, "{} bytes", field.len()) {
            Ok(()) => Ok(()),
            Err(_) => Err(AllocError),
        };
    }
    for byte in field {
        push_byte(text, *byte)?;
    }
    Ok(())
}

fn push_byte(text: &mut String, byte: u8) -> Result<(), AllocError> {
    if (0x20..0x7F).contains(&byte) {
        return text.push(char::from(byte));
    }
    match write!(text, "\\x{byte:02X}") {
        Ok(()) => Ok(()),
        Err(_) => Err(AllocError),
    }
}

/// Whether the line is read to an item of texts with the fields of the row.
fn verdict(alloc: Global, row: &ByteRecord, line: &[u8]) -> Result<&'static str, AllocError> {
    let columns = texts(alloc, row.len().max(1))?;
    if !are_columns(&columns) {
        return Ok("too many columns");
    }
    verdict_under(alloc, &Schema::new(false, columns), row, line)
}

fn verdict_under(
    alloc: Global,
    schema: &Schema,
    row: &ByteRecord,
    line: &[u8],
) -> Result<&'static str, AllocError> {
    match read_item(alloc, schema, line) {
        Ok(item) if has_fields(&item, row) => Ok("same"),
        Ok(_) => Ok("other fields"),
        Err(ItemStop::Skip(_)) => Ok("skipped"),
        Err(ItemStop::Memory) => Err(AllocError),
    }
}

/// `count` columns of texts, or as many as there are bytes to name them.
fn texts(alloc: Global, count: usize) -> Result<Vec<Column>, AllocError> {
    let mut columns = Vec::new(alloc);
    for name in (0..=u8::MAX).take(count) {
        let name = Bytes::from_slice(alloc, &[name])?;
        columns.push(Column {
            name,
            kind: Kind::Text,
        })?;
    }
    Ok(columns)
}

fn has_fields(item: &Item, row: &ByteRecord) -> bool {
    item.fields().len() == row.len()
        && item
            .fields()
            .iter()
            .enumerate()
            .all(|(index, field)| field.text() == row.get(index))
}
