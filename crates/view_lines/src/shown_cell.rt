//! A cell as a person reads it.
ghost use Rattle.std.specs.Option.{option_copied};
ghost use Rattle.std.specs.Prelude.{◌≡◌, OnOk};
ghost use Rattle.view_lines.specs.Columns.{shown};
ghost use Rattle.view_texts.specs.Values.{answer_text, field_text};
ghost use Rattle.view_texts.specs.declared.notation.Notation.TheVariants.{Plain};

use item_schema::Kind;
use std::alloc::{AllocError, Global};
use value_ops::{Field, Value};
use view_texts::{Notation, Spelling, push_answer, push_field, push_spelled};

/// The text of one cell, and the same as a person reads it.
#[derive(Drop)]
pub(crate) struct ShownCell {
    raw: Vec<u8>,
    shown: Vec<u8>,
}

impl ShownCell {
    pub(crate) fn new(alloc: Global) -> ShownCell {
        ShownCell {
            raw: Vec::new(alloc),
            shown: Vec::new(alloc),
        }
    }

    pub(crate) fn as_slice(&self) -> &[u8]
        ensures { result.now ≡ self.now.shown.items }
    {
        self.shown.as_slice()
    }

    pub(crate) fn set_bytes(&mut self, bytes: &[u8]) -> Result<(), AllocError>
        ensures { OnOk result (self.new.shown.items ≡ shown bytes.now) }
    {
        self.shown.clear();
        push_spelled(Spelling::Terminal, bytes, &mut self.shown)
    }

    pub(crate) fn set_field(&mut self, kind: Kind, field: &Field) -> Result<(), AllocError>
        ensures { OnOk result (self.new.shown.items ≡ shown (field_text Plain kind field.now)) }
    {
        self.raw.clear();
        push_field(Notation::Plain, kind, field, &mut self.raw)?;
        self.spell()
    }

    pub(crate) fn set_answer(
        &mut self,
        digits: u8,
        answer: Option<&Value>,
    ) -> Result<(), AllocError>
        ensures { OnOk result (self.new.shown.items
            ≡ shown (answer_text Plain digits (option_copied answer.entry))) }
    {
        self.raw.clear();
        push_answer(Notation::Plain, digits, answer, &mut self.raw)?;
        self.spell()
    }

    fn spell(&mut self) -> Result<(), AllocError>
        ensures { OnOk result (self.new.shown.items ≡ shown self.old.raw.items) }
    {
        self.shown.clear();
        push_spelled(Spelling::Terminal, self.raw.as_slice(), &mut self.shown)
    }
}
