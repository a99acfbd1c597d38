//! A term, as a tree of tokens.
use language_base::Span;
use query_tokens::Token;

/// A term: a word, a number or a string by itself, or a word with arguments in parentheses.
#[derive(Drop)]
pub enum Tree {
    Leaf(Token),
    /// The word, one argument or more, and the place of the whole: from the word to the `)`.
    Call(Token, Vec<Tree>, Span),
}

impl Tree {
    ghost use Rattle.std.specs.Prelude.{◌≡◌};
    ghost use Rattle.query_trees.specs.Trees.{Trees, tree_before, trees_of, call};

    /// A word with arguments.
    pub(crate) fn call(head: Token, arguments: Vec<Tree>, span: Span) -> Tree
        ensures { (rest : Trees)
            → tree_before result rest ≡ call head (trees_of arguments.items) span rest }
    {
        Tree::Call(head, arguments, span)
    }
}
