//! The drawing of a word with two readings.
ghost use Rattle.std.specs.Prelude.{◌≡◌, IfOk};
ghost use Rattle.ambiguity_example.specs.Asks.{Asks, columns_of};
ghost use Rattle.ambiguity_example.specs.Shows.{Question};
ghost use Rattle.drawn_example.specs.Drawings.{drawing, readers_of, said_of};

use crate::readers::{Readers, readers_of};
use crate::rows::push_rows;
use ambiguity_example::{Ask, Example};
use item_schema::{Item, Schema};
use language_base::Bytes;
use std::alloc::{AllocError, Global};

const BOTH_NONE: &str = "Both operands have a value on no items at all.\n";

const BOTH: &str = "Both operands have a value on these items:\n";

const OPERANDS: &str = "\
These items can be parted in two ways between the left and the right operand:
    one way  another
";

const NO_PIECES: &str =
    "The operand has a value on no items at all: these are no piece, or one piece.\n";

const PIECES: &str = "\
These items can be parted in two ways into pieces, which are numbered here:
    one way  another
";

/// A word with two readings, the columns of its items, and by what these are read.
#[derive(Drop)]
pub(crate) struct Drawing<'a> {
    pub(crate) schema: &'a Schema,
    pub(crate) readers: Readers,
    pub(crate) example: &'a Example,
}

/// The word of an example for the question, drawn with both of its readings.
pub fn drawing_of(alloc: Global, ask: Ask<'_>, example: &Example) -> Result<Bytes, AllocError>
    ensures { IfOk result (λ text. (question : Question) → Asks ask.entry question
        → text ≡ drawing (columns_of ask.entry) (readers_of question) example.now) }
{
    let drawing = Drawing {
        schema: schema_of(ask),
        readers: readers_of(ask),
        example,
    };
    let mut shown = Vec::new(alloc);
    shown.extend_from_slice(said_of(drawing.readers, example.items()).as_bytes())?;
    push_rows(alloc, &drawing, &mut shown)?;
    Ok(Bytes::from_vec(shown))
}

fn schema_of(ask: Ask<'_>) -> &Schema
    ensures { result.now.columns ≡ columns_of ask.entry }
{
    match ask {
        Ask::Choice(first, _) => first.cells().schema(),
        Ask::Split(first, _) => first.cells().schema(),
        Ask::Iter(nfa) => nfa.cells().schema(),
    }
}

#[tactic(auto, unfolding(crate::specs::Drawings::said_of))]
fn said_of(readers: Readers, items: &[Item]) -> &'static str
    ensures { result.now ≡ said_of readers items.now }
{
    match (readers, items) {
        (Readers::Both, []) => BOTH_NONE,
        (Readers::Both, _) => BOTH,
        (Readers::Operands, _) => OPERANDS,
        (Readers::Pieces, []) => NO_PIECES,
        (Readers::Pieces, _) => PIECES,
    }
}
