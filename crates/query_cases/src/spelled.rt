//! Cases as tables spell them.

use crate::case::Case;
use crate::spelling::bytes_of;
use std::alloc::{AllocError, Global};

/// More lines than a table has.
const LINES: u32 = 1_000;

/// A case with the number of its line in the table.
#[derive(Drop)]
pub struct NumberedCase {
    pub number: u32,
    pub case: Case,
}

/// What comes before and after the part of a query.
#[derive(Drop)]
struct Frame {
    front: Vec<u8>,
    back: Vec<u8>,
}

impl Frame {
    /// The frame that is spelled, with `...` in place of the part.
    fn of(alloc: Global, spelled: &str) -> Result<Frame, AllocError> {
        let mut pieces = spelled.split("...");
        Ok(Frame {
            front: bytes_of(alloc, pieces.next().unwrap_or(""))?,
            back: bytes_of(alloc, pieces.next().unwrap_or(""))?,
        })
    }

    fn around(&self, alloc: Global, part: &[u8]) -> Result<Vec<u8>, AllocError> {
        let mut query = Vec::from_slice(alloc, &self.front)?;
        query.extend_from_slice(part)?;
        query.extend_from_slice(&self.back)?;
        Ok(query)
    }
}

/// The cases of the table, a line each: a part of a query, and after a bar the items, if any. A
/// line that begins with `frame` has the frame of the parts below it. Empty lines and lines that
/// begin with `#` are no cases.
pub fn spelled_cases(alloc: Global, table: &str) -> Result<Vec<NumberedCase>, AllocError> {
    let mut frame = Frame::of(alloc, "...")?;
    let mut cases = Vec::new(alloc);
    for (number, line) in (1..LINES).zip(table.lines()) {
        add_line(alloc, &mut frame, &mut cases, number, line)?;
    }
    Ok(cases)
}

fn add_line(
    alloc: Global,
    frame: &mut Frame,
    cases: &mut Vec<NumberedCase>,
    number: u32,
    line: &str,
) -> Result<(), AllocError> {
    if let Some(spelled) = line.strip_prefix("frame ") {
        *frame = Frame::of(alloc, spelled)?;
    } else if !line.is_empty() && !line.starts_with('#') {
        let case = case_of(alloc, frame, line)?;
        cases.push(NumberedCase { number, case })?;
    }
    Ok(())
}

fn case_of(alloc: Global, frame: &Frame, line: &str) -> Result<Case, AllocError> {
    let mut pieces = line.split(" | ");
    let part = bytes_of(alloc, pieces.next().unwrap_or(""))?;
    Ok(Case {
        query: frame.around(alloc, &part)?,
        items: bytes_of(alloc, pieces.next().unwrap_or(""))?,
    })
}
