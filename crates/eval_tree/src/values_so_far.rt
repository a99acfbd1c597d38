//! Values of an iteration so far: each is folded with the value of the next piece.
ghost use Rattle.std.specs.Prelude.{◌≡◌, None, IfOk, IsOk};
ghost use Rattle.split_eval.specs.Entries.{entry_at};
ghost use Rattle.value_ops.specs.Values.{IsNoTable};
ghost use Rattle.step_laws.specs.Lefts.{IsPut};

use iter_eval::Chain;
use std::alloc::{AllocError, Global};
use step_laws::Hit;
use value_ops::Value;

/// The value so far waits at the end of its pieces if a further piece may come. If the starts are
/// apart (`AreApart`), there is room for it.
#[inline(always)]
pub(crate) fn continue_from(
    alloc: Global,
    so_far: &mut Chain<Value>,
    live: bool,
    at: u64,
    hit: &Hit,
) -> Result<(), AllocError>
    requires { entry_at so_far.old.entries at ≡ None }
    ensures put { IfOk result (λ done. IsPut live so_far.old
        (record { inner = at; outer = hit.now.start; value = hit.now.value }) so_far.new) }
    ensures no_memory { IsNoTable hit.now.value → IsOk result }
{
    if live && so_far.len() < so_far.room() as usize {
        match &hit.value {
            Value::Scalar(scalar) => so_far.put(at, hit.start, Value::Scalar(*scalar)),
            other => so_far.put(at, hit.start, other.try_copy(alloc)?),
        }
    }
    Ok(())
}

/// The same where a value may wait there already, which then stays.
pub(crate) fn continue_if_new(
    alloc: Global,
    so_far: &mut Chain<Value>,
    live: bool,
    at: u64,
    hit: &Hit,
) -> Result<(), AllocError>
    ensures put { IfOk result (λ done. IsPut live so_far.old
        (record { inner = at; outer = hit.now.start; value = hit.now.value }) so_far.new) }
    ensures no_memory { IsNoTable hit.now.value → IsOk result }
{
    if live && so_far.find(at).is_none() {
        return continue_from(alloc, so_far, live, at, hit);
    }
    Ok(())
}
