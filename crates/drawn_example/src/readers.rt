//! By what the items of a word with two readings are read.
ghost use Rattle.std.specs.Prelude.{◌≡◌};
ghost use Rattle.ambiguity_example.specs.Asks.{Asks};
ghost use Rattle.ambiguity_example.specs.Shows.{Question};
ghost use Rattle.drawn_example.specs.Drawings.{readers_of};

use ambiguity_example::Ask;

/// By what the items of a word with two readings are read.
#[derive(Clone, Copy, Debug, PartialEq, Eq)]
pub enum Readers {
    /// Each of the operands reads all of them.
    Both,
    /// The left operand reads the first ones, and the right operand the others.
    Operands,
    /// The operand reads them in pieces.
    Pieces,
}

/// By what the items of a word that breaks the rule are read.
pub(crate) fn readers_of(ask: Ask<'_>) -> Readers
    ensures { (question : Question) → Asks ask.entry question → result ≡ readers_of question }
{
    match ask {
        Ask::Choice(_, _) => Readers::Both,
        Ask::Split(_, _) => Readers::Operands,
        Ask::Iter(_) => Readers::Pieces,
    }
}
