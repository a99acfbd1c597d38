//! A file of terms.
ghost use Rattle.std.specs.Prelude.{◌≡◌};
ghost use Rattle.query_parser.specs.Plain.{terms_of};
ghost use Rattle.query_parser.specs.Printing.{IsFile};

use crate::Term;
use std::marker::Model;

/// Terms that have the form of a file, seen as their list.
#[derive(Drop)]
pub struct File {
    terms: Vec<Term>,
}

impl Model for File {
    ghost use Rattle.std.specs.Prelude.{List};
    ghost use Rattle.query_parser.specs.declared.term.Term.{Term};
    ghost use Rattle.query_parser.specs.Plain.{terms_of};
    ghost use Rattle.query_parser.specs.Printing.{IsFile};

    ghost Value = { List Term };

    ghost use Rattle.query_parser.specs.contracts.term.Term as coded_term;
    ghost use Rattle.std.specs.Coded.{codes};

    ghost coded = { Prim.hlevel (codes, coded_term.the_row.coded) };

    ghost view = { λ file. file.terms.items };

    ghost invariant = { λ file. IsFile (terms_of file.terms.items) };
}

impl File {
    pub(crate) fn new(terms: Vec<Term>) -> File
        requires { IsFile (terms_of terms.items) }
        ensures { result ≡ terms.items }
    {
        File { terms }
    }

    pub fn terms(&self) -> &[Term]
        ensures terms { result.now ≡ self.now }
        ensures file { IsFile (terms_of self.now) }
    {
        &self.terms
    }
}
