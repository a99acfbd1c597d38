//! Lines of a stream as they are shown.
ghost use Rattle.std.specs.List.{flat_map};
ghost use Rattle.std.specs.Prelude.{◌≡◌, ◌++◌, OnOk};
ghost use Rattle.hints_run.specs.ShownLines.{shown_line};

use language_base::Bytes;
use std::alloc::AllocError;

/// Appends the lines.
pub fn push_lines(lines: &[Bytes], shown: &mut Vec<u8>) -> Result<(), AllocError>
    ensures { OnOk result (shown.new.items ≡ shown.old.items ++ flat_map shown_line lines.now) }
{
    'lines: for line in lines {
        push_line(line.as_slice(), shown)?;
    }
    Ok(())
}

fn push_line(line: &[u8], shown: &mut Vec<u8>) -> Result<(), AllocError>
    ensures { OnOk result (shown.new.items ≡ shown.old.items ++ shown_line line.now) }
{
    shown.extend_from_slice(b"    ")?;
    shown.extend_from_slice(line)?;
    shown.extend_from_slice(b"\n")
}
