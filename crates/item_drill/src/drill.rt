//! The lines of a drill.
ghost use Rattle.std.specs.Prelude.{◌≡◌, [], ◌∷◌, ◌++◌, IfOk, IsTrue, OnErr, OnOk, length};
ghost use Rattle.std.specs.List.{list_all};
ghost use Rattle.item_schema.specs.Layout.{is_read};
ghost use Rattle.item_drill.specs.Commas.{comma_at};
ghost use Rattle.item_drill.specs.Draws.{state_after};
ghost use Rattle.item_drill.specs.Lines.{are_read, bytes_of, header_of, line_from};
ghost use Rattle.item_drill.specs.Lines.{names_of, row_of, texts_from};

use crate::draws::Draws;
use crate::field::push_field;
use item_schema::{Column, Schema};
use language_base::Bytes;
use std::alloc::{AllocError, Global};
use std::marker::Model;

/// The bytes that are reserved for a field and its comma. Few fields need more.
const FIELD_BYTES: usize = 8;

/// Lines of a stream that are drawn from a seed, one after the other. Each of them is an item.
#[derive(Drop)]
pub struct Drill<'s> {
    schema: &'s Schema,
    draws: Draws,
}

impl<'s> Model for Drill<'s> {
    ghost use Rattle.std.specs.Prelude.{IsTrue};
    ghost use Rattle.std.specs.List.{list_all};
    ghost use Rattle.item_schema.specs.Layout.{is_read};
    ghost use Rattle.item_drill.specs.Lines.{Drilling};

    ghost Value = { Drilling };

    ghost view = { λ d. record { layout = d.schema.now; state = d.draws.state } };

    ghost invariant = { λ d. IsTrue (list_all (λ c. is_read c.kind) d.schema.now.columns) };
}

impl<'s> Drill<'s> {
    /// The drill before its first line. It takes no memory.
    pub fn new(schema: &'s Schema, seed: u64) -> Drill<'s>
        requires { IsTrue (list_all (λ c. is_read c.kind) schema.now.columns) }
        ensures { result ≡ record { layout = schema.now; state = seed } }
    {
        Drill {
            schema,
            draws: Draws { state: seed },
        }
    }

    /// The line that comes before all others, with its LF. It has no bytes if the schema has no
    /// header.
    pub fn header(&self, alloc: Global) -> Result<Bytes, AllocError>
        ensures { IfOk result (λ line. line ≡ bytes_of (header_of self.now.layout)) }
    {
        let mut text = Vec::new(alloc);
        if self.schema.has_header() {
            push_names(self.schema.columns(), &mut text)?;
            text.push(b'\n')?;
        }
        Ok(Bytes::from_vec(text))
    }

    /// The next line, with its LF. If the drill is out of memory, a later call gives the same line.
    pub fn line(&mut self, alloc: Global) -> Result<Bytes, AllocError>
        ensures line { IfOk result (λ line.
            line ≡ bytes_of (line_from self.old.layout.columns self.old.state ∷ [])) }
        ensures state { OnOk result (self.new ≡ record self.old {
          state = state_after (length self.old.layout.columns) self.old.state;
        }) }
        ensures err { OnErr result (self.new ≡ self.old) }
    {
        let columns = self.schema.columns();
        let mut text = Vec::with_capacity(alloc, columns.len() * FIELD_BYTES)?;
        let draws = push_fields(columns, self.draws, &mut text)?;
        text.push(b'\n')?;
        self.draws = draws;
        Ok(Bytes::from_vec(text))
    }
}

// Appends the fields of the columns, with commas between them, and gives the draws after them.
fn push_fields(columns: &[Column], draws: Draws, text: &mut Vec<u8>) -> Result<Draws, AllocError>
    requires { IsTrue (are_read columns.now) }
    ensures text { OnOk result (
        text.new.items ≡ text.old.items ++ row_of (texts_from columns.now draws.state)) }
    ensures state { IfOk result (λ after.
        after.state ≡ state_after (length columns.now) draws.state) }
{
    let mut draws = draws;
    'fields: for (place, column) in columns.iter().enumerate() {
        push_comma(place, text)?;
        push_field(column.kind, draws.draw(), text)?;
    }
    Ok(draws)
}

// Appends the names of the columns, with commas between them.
fn push_names(columns: &[Column], text: &mut Vec<u8>) -> Result<(), AllocError>
    ensures { OnOk result (text.new.items ≡ text.old.items ++ row_of (names_of columns.now)) }
{
    'names: for (place, column) in columns.iter().enumerate() {
        push_comma(place, text)?;
        text.extend_from_slice(column.name.as_slice())?;
    }
    Ok(())
}

// Appends a comma before each text but the first.
fn push_comma(place: usize, text: &mut Vec<u8>) -> Result<(), AllocError>
    ensures { OnOk result (text.new.items ≡ text.old.items ++ comma_at place) }
{
    if place > 0 {
        text.push(b',')?;
    }
    Ok(())
}
