//! The cells of tables that other programs read.
ghost use Rattle.std.specs.Prelude.{◌≡◌, ◌++◌, OnOk};
ghost use Rattle.std.specs.List.{flat_map, list_any};
ghost use Rattle.view_texts.specs.Cells.{cell_text, csv_text, doubled, is_special, tsv_byte};
ghost use Rattle.view_texts.specs.Cells.{tsv_text};

use crate::delimiter::Delimiter;
use std::alloc::AllocError;

/// Appends the text of a cell. Between commas it has quotes if it needs them; between tabs its
/// tabs, ends of lines and backslashes are written by letters.
pub fn push_cell(delimiter: Delimiter, cell: &[u8], text: &mut Vec<u8>) -> Result<(), AllocError>
    ensures { OnOk result (text.new.items ≡ text.old.items ++ cell_text delimiter cell.now) }
{
    match delimiter {
        Delimiter::Comma => push_csv(cell, text),
        Delimiter::Tab => push_tsv(cell, text),
    }
}

fn push_csv(cell: &[u8], text: &mut Vec<u8>) -> Result<(), AllocError>
    ensures { OnOk result (text.new.items ≡ text.old.items ++ csv_text cell.now) }
{
    if !has_special(cell) {
        return text.extend_from_slice(cell);
    }
    text.push(b'"')?;
    push_doubled(cell, text)?;
    text.extend_from_slice(b"\"")
}

fn has_special(cell: &[u8]) -> bool
    ensures { result ≡ list_any is_special cell.now }
{
    cell.iter().any(|byte| is_special(*byte))
}

fn is_special(byte: u8) -> bool
    ensures { result ≡ is_special byte }
{
    byte == b',' || byte == b'"' || byte == b'\r' || byte == b'\n'
}

// Appends a cell with each of its quotes doubled.
fn push_doubled(cell: &[u8], text: &mut Vec<u8>) -> Result<(), AllocError>
    ensures { OnOk result (text.new.items ≡ text.old.items ++ flat_map doubled cell.now) }
{
    'bytes: for &byte in cell {
        if byte == b'"' {
            text.push(b'"')?;
        }
        text.push(byte)?;
    }
    Ok(())
}

fn push_tsv(cell: &[u8], text: &mut Vec<u8>) -> Result<(), AllocError>
    ensures { OnOk result (text.new.items ≡ text.old.items ++ tsv_text cell.now) }
{
    'bytes: for &byte in cell {
        push_tsv_byte(byte, text)?;
    }
    Ok(())
}

fn push_tsv_byte(byte: u8, text: &mut Vec<u8>) -> Result<(), AllocError>
    ensures { OnOk result (text.new.items ≡ text.old.items ++ tsv_byte byte) }
{
    match byte {
        b'\t' => text.extend_from_slice(b"\\t"),
        b'\n' => text.extend_from_slice(b"\\n"),
        b'\r' => text.extend_from_slice(b"\\r"),
        b'\\' => text.extend_from_slice(b"\\\\"),
        _ => text.extend_from_slice(&[byte]),
    }
}
