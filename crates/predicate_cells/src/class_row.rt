//! Rows in which one column has a field of a class.
ghost use Rattle.std.specs.Prelude.{◌<◌};
ghost use Rattle.predicate_cells.specs.Ranks.{count_in};

use crate::classes::Classes;
use predicates::Row;

/// A row with a field of a class in one column, and without a number or a text in any other.
#[derive(Clone, Copy)]
pub(crate) struct ClassRow<'c> {
    pub(crate) column: u32,
    pub(crate) classes: &'c Classes,
    pub(crate) class: usize,
    ghost below: { class < count_in classes.now },
}

impl Row for ClassRow<'_> {
    ghost use Rattle.std.specs.Prelude.{Some};
    ghost use Rattle.predicate_cells.specs.Ranks.{field_in};
    ghost use Rattle.predicate_cells.specs.Samples.{row_of};

    ghost fields = { λ r. row_of r.column (Some (field_in r.classes.now r.class)) };

    fn number(&self, column: u32) -> Option<i64> {
        if column == self.column {
            self.classes.number(self.class)
        } else {
            None
        }
    }

    fn text(&self, column: u32) -> Option<&[u8]> {
        if column == self.column {
            self.classes.text(self.class)
        } else {
            None
        }
    }
}
