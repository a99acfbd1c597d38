//! The texts that the tests of a column name.
ghost use Rattle.std.specs.Prelude.{◌≡◌, [], ◌∷◌, ◌++◌, map, filter, OnOk, IfOk};
ghost use Rattle.std.specs.Cmp.Lexicographic.{slice_cmp};
ghost use Rattle.std.specs.List.{flat_map};
ghost use Rattle.std.specs.Ordering.{nat_cmp};
ghost use Rattle.predicate_cells.specs.Classes.{named_texts};
ghost use Rattle.predicates.specs.Plain.{plain_of};
ghost use Rattle.predicate_cells.specs.Rising.{rising};
ghost use Rattle.value_ops.specs.Texts.{are_bytes};

use predicates::Pred;
use std::alloc::{AllocError, Global};
use value_ops::Bytes;

/// The texts from the least to the greatest in the order of bytes.
pub(crate) fn texts_of(alloc: Global, preds: &[Pred], column: u32) -> Result<Vec<Bytes>, AllocError>
    ensures { IfOk result (λ texts. texts.items
        ≡ rising (slice_cmp nat_cmp)
        (filter are_bytes (flat_map (named_texts column) (map plain_of preds.now)))) }
{
    let mut named = Vec::new(alloc);
    for pred in preds {
        push_named(pred, column, &mut named)?;
    }
    named.sort_unstable();
    named.dedup();
    copies_of(alloc, &named)
}

fn push_named<'p>(pred: &'p Pred, column: u32, named: &mut Vec<&'p [u8]>) -> Result<(), AllocError>
    ensures { OnOk result (map (λ t. t.now) named.new.items
        ≡ map (λ t. t.now) named.old.items
        ++ filter are_bytes (named_texts column (plain_of pred.now))) }
{
    match pred {
        Pred::EqText(tested, text) | Pred::NeText(tested, text) if *tested == column => {
            push_text(text.as_slice(), named)
        }
        Pred::And(left, right) | Pred::Or(left, right) => {
            push_named(left, column, named)?;
            push_named(right, column, named)
        }
        Pred::Not(inner) => push_named(inner, column, named),
        _ => Ok(()),
    }
}

// Every list of bytes is a text.
fn push_text<'p>(text: &'p [u8], named: &mut Vec<&'p [u8]>) -> Result<(), AllocError>
    ensures { OnOk result (map (λ t. t.now) named.new.items
        ≡ map (λ t. t.now) named.old.items ++ filter are_bytes (text.now ∷ [])) }
{
    named.push(text)?;
    Ok(())
}

fn copies_of(alloc: Global, texts: &[&[u8]]) -> Result<Vec<Bytes>, AllocError>
    ensures { IfOk result (λ copies. copies.items ≡ map (λ t. t.now) texts.now) }
{
    let mut copies = Vec::with_capacity(alloc, texts.len())?;
    for text in texts {
        copies.push(Bytes::from_slice(alloc, text)?)?;
    }
    Ok(copies)
}

pub(crate) fn copied(alloc: Global, texts: &[Bytes]) -> Result<Vec<Bytes>, AllocError>
    ensures { IfOk result (λ copies. copies.items ≡ texts.now) }
{
    let mut copies = Vec::with_capacity(alloc, texts.len())?;
    for text in texts {
        copies.push(text.try_copy(alloc)?)?;
    }
    Ok(copies)
}
