//! Tokens that are read from the front.
ghost use Rattle.std.specs.Prelude.{◌≡◌, ◌↔◌, ◌∷◌, [], IsTrue, IfOk, IfErr};
ghost use Rattle.query_trees.specs.Reads.{NextIs};
ghost use Rattle.query_trees.specs.declared.stop.TreeStop.TheVariants.{NoList};

use crate::stop::TreeStop;
use language_base::Span;
use query_tokens::{Token, TokenKind};

/// The tokens that are still to be read, and the end of their text.
#[derive(Drop)]
pub(crate) struct Reader<'a> {
    pub(crate) rest: &'a [Token],
    pub(crate) end: u32,
}

impl Reader<'_> {
    pub(crate) fn next(&mut self) -> Result<Token, TreeStop>
        ensures token { IfOk result (λ token. self.old.rest.now ≡ token ∷ self.new.rest.now) }
        ensures none { IfErr result (λ _. self.old.rest.now ≡ []) }
    {
        match self.rest {
            [] => Err(self.cut_short()),
            [token, rest @ ..] => {
                self.rest = rest;
                Ok(*token)
            }
        }
    }

    pub(crate) fn next_is(&self, kind: TokenKind) -> bool
        ensures { IsTrue result ↔ NextIs kind self.now.rest.now }
    {
        match self.rest {
            [] => false,
            [token, ..] => token.kind == kind,
        }
    }

    pub(crate) fn cut_short(&self) -> TreeStop
        ensures { result ≡ NoList (record { from = self.now.end; to = self.now.end }) }
    {
        TreeStop::NoList(Span {
            from: self.end,
            to: self.end,
        })
    }
}
