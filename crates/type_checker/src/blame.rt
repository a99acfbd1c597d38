//! Why a query is refused by a rule that forbids a word with two readings.
ghost use Rattle.std.specs.Prelude.{◌≡◌};
ghost use Rattle.type_checker.specs.Blames.{IsAskOf, ambiguity_of, refusal_of};

use ambiguity_example::Ask;
use language_base::Refusal;
use symbolic_nfa::Nfa;

/// The automata of the rates of two operands.
#[derive(Drop)]
pub struct Operands {
    pub(crate) left: Nfa,
    pub(crate) right: Nfa,
}

/// A broken rule that forbids a word with two readings, with the automata that it is about.
#[derive(Drop)]
pub enum Ambiguity {
    /// A word is in the rates of both operands.
    Choice(Box<Operands>),
    /// A word splits in two ways.
    Split(Box<Operands>),
    /// A word factors in two ways.
    Iter(Box<Nfa>),
}

impl Ambiguity {
    /// The rule as the question that an example answers.
    pub fn ask(&self) -> Ask<'_>
        ensures { IsAskOf self.now result }
    {
        match self {
            Ambiguity::Choice(operands) => Ask::Choice(&operands.left, &operands.right),
            Ambiguity::Split(operands) => Ask::Split(&operands.left, &operands.right),
            Ambiguity::Iter(operand) => Ask::Iter(operand),
        }
    }
}

/// The refusal of a query by a rule that forbids a word with two readings.
#[derive(Drop)]
pub struct Blame {
    refusal: Refusal,
    ambiguity: Ambiguity,
}

impl Blame {
    pub(crate) fn new(refusal: Refusal, ambiguity: Ambiguity) -> Blame
        ensures refusal { refusal_of result ≡ refusal }
        ensures ambiguity { ambiguity_of result ≡ ambiguity }
    {
        Blame { refusal, ambiguity }
    }

    pub fn refusal(&self) -> Refusal
        ensures { result ≡ refusal_of self.now }
    {
        self.refusal
    }

    /// The broken rule as such a question. Its automata are over the cells of the stream of the
    /// node that breaks it.
    pub fn ask(&self) -> Ask<'_>
        ensures { IsAskOf (ambiguity_of self.now) result }
    {
        self.ambiguity.ask()
    }
}
