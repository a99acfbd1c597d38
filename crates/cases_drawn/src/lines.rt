//! The lines of items that a run has to answer.

/// How many lines are neither the header nor empty. A CR before an LF is no part of the line.
pub(crate) fn lines_due(items: &[u8], has_header: bool) -> u32 {
    let mut due: u32 = 0;
    let mut is_header = has_header;
    let mut length: usize = 0;
    let mut last = b'\n';
    for &byte in items {
        if byte == b'\n' {
            let is_empty = length == 0 || (length == 1 && last == b'\r');
            if !is_header && !is_empty {
                due = due.saturating_add(1);
            }
            is_header = false;
            length = 0;
        } else {
            length = length.saturating_add(1);
        }
        last = byte;
    }
    if !is_header && length > 0 {
        due = due.saturating_add(1);
    }
    due
}
