// Queries as a session takes them.
ghost use Rattle.std.specs.Prelude.{IfOk};
ghost use Rattle.query_syntax.specs.Limits.{IsWithin};
ghost use Rattle.query_syntax.specs.Plain.{plain_stream};

use query_model::Checked;
use query_parser::ReadStop;
use query_syntax::{Program, read_syntax};
use std::alloc::Global;
use std::test::Fail;
use type_checker::check;

pub fn compiled(alloc: Global, text: &[u8]) -> Result<Box<Checked>, Fail> {
    let program = read(alloc, text)?;
    let checked = check(alloc, &program)?;
    Ok(Box::new(alloc, checked)?)
}

fn read(alloc: Global, text: &[u8]) -> Result<Program, ReadStop>
    ensures { IfOk result (λ program. IsWithin (plain_stream program.stream)) }
{
    match read_syntax(alloc, text) {
        Ok(program) => Ok(program),
        Err(stop) => Err(stop),
    }
}
