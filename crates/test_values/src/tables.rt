// Scalars under keys. There are more of them than the table has room for at first.
use crate::assertions::same;
use expressions::typed_expressions_have_values;
use std::alloc::{AllocError, Global};
use std::process::Abort;
use std::test::Fail;
use value_ops::{Scalar, Table};

fn boxed(alloc: Global, table: Table) -> Result<Box<Table>, AllocError> {
    Ok(Box::new(alloc, table)?)
}

fn push_new(table: &mut Table, key: &[u8], value: Scalar) -> Result<(), AllocError> {
    if table.get(key).is_none() {
        table.push(key, value)?;
    }
    Ok(())
}

const ENTRIES: &[(&[u8], Scalar)] = &[
    (b"north", Scalar::Number(-3)),
    (b"", Scalar::Overflow),
    (b"nor", Scalar::DivZero),
];

fn entries(alloc: Global) -> Result<Box<Table>, AllocError> {
    let mut table = boxed(alloc, Table::with_capacity(alloc, 1)?)?;
    for (key, value) in ENTRIES {
        push_new(&mut table, key, *value)?;
    }
    Ok(table)
}

fn has_entry_at(rt: &impl Abort, table: &Table, place: usize, key: &[u8], value: Scalar) {
    assert!(rt; place < table.len());
    same(rt, table.get(key), Some(value));
    same(rt, table.key(place), key);
    same(rt, table.value(place), value);
}

#[test]
fn entries_are_found_by_place_and_by_key(rt: HostRuntime) -> Result<(), Fail> {
    let alloc = rt.alloc();
    let table = entries(alloc)?;
    same(&rt, (table.len(), table.is_empty()), (3, false));
    let copy = boxed(alloc, table.try_copy(alloc)?)?;
    for (place, (key, value)) in ENTRIES.iter().enumerate() {
        has_entry_at(&rt, &copy, place, key, *value);
    }
    same(&rt, copy.get(b"south"), None);
    typed_expressions_have_values();
    Ok(())
}
