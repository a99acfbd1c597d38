//! Lists of truth values.
ghost use Rattle.std.specs.Prelude.{◌≡◌, ◌≤◌, ◌*◌, ◌&&◌, ◌||◌, not, length, map, replicate, IfOk};
ghost use Rattle.std.specs.List.{flat_map, repeat, zip};
ghost use Rattle.language_base.specs.Limits.{max_cells};

use std::alloc::{AllocError, Global};

pub(crate) fn constant(alloc: Global, truth: bool, count: usize) -> Result<Vec<bool>, AllocError>
    ensures { IfOk result (λ truths. truths.items ≡ replicate count truth) }
{
    vec![in alloc; truth; count]
}

pub(crate) fn repeated(
    alloc: Global,
    truths: &[bool],
    count: usize,
) -> Result<Vec<bool>, AllocError>
    ensures { IfOk result (λ copies. copies.items ≡ repeat count truths.now) }
{
    truths.repeat(alloc, count)
}

/// The conjunction, place by place.
pub(crate) fn both(mut truths: Vec<bool>, others: &[bool]) -> Vec<bool>
    requires { length others.now ≡ length truths.items }
    ensures { result.items ≡ map (λ p. p.0 && p.1) (zip truths.items others.now) }
{
    for at in 0..others.len() {
        truths[at] = truths[at] && others[at];
    }
    truths
}

/// The disjunction, place by place.
pub(crate) fn either(mut truths: Vec<bool>, others: &[bool]) -> Vec<bool>
    requires { length others.now ≡ length truths.items }
    ensures { result.items ≡ map (λ p. p.0 || p.1) (zip truths.items others.now) }
{
    for at in 0..others.len() {
        truths[at] = truths[at] || others[at];
    }
    truths
}

/// The negation, place by place.
pub(crate) fn negated(mut truths: Vec<bool>) -> Vec<bool>
    ensures { result.items ≡ map not truths.items }
{
    for at in 0..truths.len() {
        truths[at] = !truths[at];
    }
    truths
}

/// Each of the truth values `width` times.
pub(crate) fn block_of(
    alloc: Global,
    truths: &[bool],
    width: usize,
) -> Result<Vec<bool>, AllocError>
    requires { length truths.now * width ≤ max_cells }
    ensures { IfOk result (λ block.
        block.items ≡ flat_map (λ truth. replicate width truth) truths.now) }
{
    let mut block = Vec::with_capacity(alloc, truths.len() * width)?;
    for truth in truths {
        block.resize(block.len() + width, *truth)?;
    }
    Ok(block)
}
