//! A word that a refused query reads in two ways.
ghost use Rattle.std.specs.Prelude.{IfOk};
ghost use Rattle.query_compiler.specs.Stops.{IsBlamed};
ghost use Rattle.explain_run.specs.Blamed.{DrawsBlame};

use ambiguity_example::example;
use drawn_example::drawing_of;
use language_base::Bytes;
use std::alloc::{AllocError, Global};
use type_checker::Blame;

/// The drawing of a shortest word with two readings such as the broken rule forbids.
pub(crate) fn drawn_readings(alloc: Global, blame: &Blame) -> Result<Bytes, AllocError>
    requires { IsBlamed blame.now }
    ensures { IfOk result (DrawsBlame blame.now) }
{
    let ask = blame.ask();
    match example(alloc, ask)? {
        Some(example) => drawing_of(alloc, ask, &example),
        // The rule is broken, so some word has two readings.
        None => unreachable!(),
    }
}
