//! Putting fields into an item that has to stay in its cell.
ghost use Rattle.std.specs.Prelude.{◌≡◌, IfOk, slice_set};
ghost use Rattle.item_schema.specs.Items.{IsItemOf};
ghost use Rattle.plain_items.specs.Becoming.{IsPut, number_field};
ghost use Rattle.value_ops.specs.declared.field.Field.TheVariants as field;

use item_schema::Item;
use language_base::Bytes;
use predicate_cells::Cells;
use std::alloc::{AllocError, Global};
use value_ops::{Field, Scalar, Value};

/// How the numbers of a column are stored.
#[derive(Clone, Copy)]
pub(crate) enum Form {
    Whole,
    /// As the values of a query.
    Value,
}

/// Puts the number into the column if the item stays in its cell, and says whether it does.
pub(crate) fn put_number(
    alloc: Global,
    cells: &Cells,
    item: &mut Item<'static>,
    column: usize,
    form: Form,
    number: i64,
) -> Result<bool, AllocError>
    requires { IsItemOf cells.now.layout.columns item.old }
    ensures { IfOk result
        (IsPut cells.now item.old column (number_field form number) item.new) }
{
    let field = number_field(form, number);
    put(alloc, cells, item, column, &field)
}

/// The same for a text.
pub(crate) fn put_text(
    alloc: Global,
    cells: &Cells,
    item: &mut Item<'static>,
    column: usize,
    text: &[u8],
) -> Result<bool, AllocError>
    requires { IsItemOf cells.now.layout.columns item.old }
    ensures { IfOk result (IsPut cells.now item.old column (field.Text text.now) item.new) }
{
    let field = Field::Text(Bytes::from_slice(alloc, text)?);
    put(alloc, cells, item, column, &field)
}

fn number_field(form: Form, number: i64) -> Field
    ensures { result ≡ number_field form number }
{
    match form {
        Form::Whole => Field::Int(number),
        Form::Value => Field::Val(Value::Scalar(Scalar::Number(number))),
    }
}

fn put(
    alloc: Global,
    cells: &Cells,
    item: &mut Item<'static>,
    column: usize,
    field: &Field,
) -> Result<bool, AllocError>
    requires { IsItemOf cells.now.layout.columns item.old }
    ensures { IfOk result (IsPut cells.now item.old column field.now item.new) }
{
    let other = with_field(alloc, item, column, field)?;
    if !cells.schema().has_item(&other) || cells.of(&other) != cells.of(item) {
        return Ok(false);
    }
    *item = other;
    Ok(true)
}

fn with_field(
    alloc: Global,
    item: &Item,
    column: usize,
    field: &Field,
) -> Result<Item<'static>, AllocError>
    ensures { IfOk result (λ other. other ≡ slice_set item.now column field.now) }
{
    let mut fields = Vec::with_capacity(alloc, item.fields().len())?;
    'fields: for (at, own) in item.fields().iter().enumerate() {
        let chosen = if at == column { field } else { own };
        fields.push(chosen.try_copy(alloc)?)?;
    }
    Ok(Item::from_fields(fields))
}
