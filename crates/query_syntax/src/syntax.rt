//! The syntax tree of a text.
ghost use Rattle.std.specs.Prelude.{◌≡◌, IfErr, IfOk};
ghost use Rattle.query_parser.specs.Plain.{terms_of};
ghost use Rattle.query_parser.specs.Reading.{IsFileOf};
ghost use Rattle.query_parser.specs.Stop.{IsStopAt};
ghost use Rattle.query_syntax.specs.Files.{program_terms};
ghost use Rattle.query_syntax.specs.Plain.{plain_program};

use crate::Program;
use crate::program_reading::program_of;
use query_parser::{File, ReadStop, read_file};
use std::alloc::{AllocError, Global};

/// The syntax tree of a file.
pub fn syntax_of(alloc: Global, file: &File) -> Result<Program, AllocError>
    ensures { IfOk result (λ program. terms_of file.now ≡ program_terms (plain_program program)) }
{
    program_of(alloc, file.terms())
}

/// Reads a text to its syntax tree, or finds the first rule that it breaks.
pub fn read_syntax(alloc: Global, text: &[u8]) -> Result<Program, ReadStop>
    ensures read { IfOk result (λ program.
        IsFileOf text.now (program_terms (plain_program program))) }
    ensures stopped { IfErr result (IsStopAt text.now) }
{
    let file = read_file(alloc, text)?;
    let program = syntax_of(alloc, &file)?;
    Ok(program)
}
