//! The keys of items for the columns of a collect.
ghost use Rattle.std.specs.Prelude.{◌≡◌, ◌↔◌, ◌++◌, ◌∷◌, [], List, IfOk, OnErr, OnOk};
ghost use Rattle.joined_texts.specs.Joining.{after_bars, escaped, joined};
ghost use Rattle.value_ops.specs.declared.field.Field.{Field};
ghost use Rattle.query_model.specs.Keys.{AgreeIn, key_of, text_in, texts_in};

use item_schema::Item;
use joined_texts::Joined;
use language_base::Bytes;
use std::alloc::{AllocError, Global};

/// The text in a column, and the empty one where there is none.
pub fn text_in<'i>(item: &'i Item<'_>, column: u32) -> &'i [u8]
    ensures { result.now ≡ text_in column item.now }
{
    match item.fields().get(column as usize) {
        Some(field) => field.text().unwrap_or(&[]),
        None => &[],
    }
}

/// Joins the texts in the columns, in place of what was joined before.
pub fn join_texts(text: &mut Joined, columns: &[u32], item: &Item) -> Result<(), AllocError>
    ensures ok { OnOk result (text.new ≡ joined (texts_in columns.now item.now)) }
    ensures err { OnErr result (text.new ≡ []) }
{
    let [first, others @ ..] = columns else {
        text.clear();
        return Ok(());
    };
    text.begin(text_in(item, *first))?;
    add_texts(text, others, item)
}

fn add_texts(text: &mut Joined, columns: &[u32], item: &Item) -> Result<(), AllocError>
    ensures ok { OnOk result
        (text.new ≡ text.old ++ after_bars (texts_in columns.now item.now)) }
    ensures err { OnErr result (text.new ≡ []) }
{
    'columns: for &column in columns {
        text.add(text_in(item, column))?;
    }
    Ok(())
}

/// The item's key, which another item has exactly where it has the same texts in all columns.
pub fn joined_key(alloc: Global, columns: &[u32], item: &Item) -> Result<Bytes, AllocError>
    ensures key { IfOk result (λ key. key ≡ key_of columns.now item.now) }
    ensures apart { IfOk result (λ key. (other : List Field)
        → (key ≡ key_of columns.now other) ↔ AgreeIn columns.now item.now other) }
{
    key_bytes(alloc, columns, item)
}

#[tactic(auto, using(crate::proofs::KeyCases::key_of_one, crate::proofs::KeyCases::key_of_others))]
fn key_bytes(alloc: Global, columns: &[u32], item: &Item) -> Result<Bytes, AllocError>
    ensures { IfOk result (λ key. key ≡ key_of columns.now item.now) }
{
    if let [column] = columns {
        return Bytes::from_slice(alloc, text_in(item, *column));
    }
    let mut joined = Joined::new(alloc);
    join_texts(&mut joined, columns, item)?;
    Ok(Bytes::from_vec(joined.into_bytes()))
}
