// Bytes of their own, and the numbers of the rules.
use crate::assertions::same;
use language_base::{Bytes, Rule};
use std::alloc::{AllocError, Global};
use std::process::Abort;
use std::test::Fail;

fn is_kept(rt: &impl Abort, alloc: Global, text: &[u8]) -> Result<(), AllocError> {
    let name = Bytes::from_slice(alloc, text)?;
    let copy = name.try_copy(alloc)?;
    let taken = Bytes::from_vec(text.to_vec(alloc)?);
    same(rt, name.as_slice(), text);
    same(rt, copy.as_slice(), text);
    same(rt, taken.as_slice(), text);
    Ok(())
}

#[test]
fn copies_keep_the_bytes(rt: HostRuntime) -> Result<(), Fail> {
    is_kept(&rt, rt.alloc(), b"price")?;
    is_kept(&rt, rt.alloc(), b"sixteen bytes 16")?;
    is_kept(&rt, rt.alloc(), b"seventeen bytes 17")?;
    Ok(())
}

#[test]
fn rules_are_numbered_as_they_are_asked(rt: HostRuntime) {
    same(&rt, Rule::Long.number(), 1);
    same(&rt, Rule::Compose.number(), 18);
}
