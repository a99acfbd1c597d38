//! A snapshot is altered in every way of some kinds, and what comes of each is counted.

use crate::outcomes::Outcomes;
use crate::resumed::resumed;
use std::alloc::{AllocError, Global};

/// Each byte has each other value.
pub(crate) fn other_values(
    alloc: Global,
    snapshot: &[u8],
    items: &[u8],
) -> Result<Outcomes, AllocError> {
    let mut found = Outcomes::default();
    let mut bytes = Vec::from_slice(alloc, snapshot)?;
    for at in 0..bytes.len() {
        other_values_at(alloc, &mut bytes, at, items, &mut found)?;
    }
    Ok(found)
}

fn other_values_at(
    alloc: Global,
    bytes: &mut [u8],
    at: usize,
    items: &[u8],
    found: &mut Outcomes,
) -> Result<(), AllocError> {
    let Some(&value) = bytes.get(at) else {
        return Ok(());
    };
    for step in 1..=u8::MAX {
        set(bytes, at, value.wrapping_add(step));
        found.add(resumed(alloc, bytes, items)?);
    }
    set(bytes, at, value);
    Ok(())
}

fn set(bytes: &mut [u8], at: usize, value: u8) {
    if let Some(byte) = bytes.get_mut(at) {
        *byte = value;
    }
}

/// Only the first bytes are there.
pub(crate) fn fronts(alloc: Global, snapshot: &[u8], items: &[u8]) -> Result<Outcomes, AllocError> {
    let mut found = Outcomes::default();
    for count in 0..snapshot.len() {
        found.add(resumed(alloc, &snapshot[..count], items)?);
    }
    Ok(found)
}

/// Two bytes have changed places.
pub(crate) fn exchanges(
    alloc: Global,
    snapshot: &[u8],
    items: &[u8],
) -> Result<Outcomes, AllocError> {
    let mut found = Outcomes::default();
    let mut bytes = Vec::from_slice(alloc, snapshot)?;
    for at in 0..bytes.len() {
        exchanges_at(alloc, &mut bytes, at, items, &mut found)?;
    }
    Ok(found)
}

fn exchanges_at(
    alloc: Global,
    bytes: &mut [u8],
    at: usize,
    items: &[u8],
    found: &mut Outcomes,
) -> Result<(), AllocError> {
    for before in 0..at {
        exchange(bytes, before, at);
        found.add(resumed(alloc, bytes, items)?);
        exchange(bytes, before, at);
    }
    Ok(())
}

fn exchange(bytes: &mut [u8], one: usize, other: usize) {
    if one < bytes.len() && other < bytes.len() {
        bytes.swap(one, other);
    }
}
