//! Numbers and texts as bytes.
ghost use Rattle.std.specs.Prelude.{◌≡◌, ◌++◌, OnOk};
ghost use Rattle.runner_snapshot.specs.Bytes.{in_eight, in_four, in_sixteen, state_bytes};
ghost use Rattle.runner_snapshot.specs.Bytes.{text_bytes};
ghost use Rattle.runner_snapshot.specs.Got.{Gets};

use crate::output::Output;
use rate_expr::State;
use std::alloc::AllocError;

/// Both halves of a mask are below this.
pub(crate) const HALF: u128 = 1 << 64;

/// Appends a count in four bytes; the higher ones of a longer count are left out.
pub(crate) fn put_count<O: Output>(count: usize, out: &mut O) -> Result<(), AllocError>
    ensures { OnOk result (Gets O.got out.old (in_four count) out.new) }
{
    out.put(&count.to_be_bytes()[4..])
}

/// Appends a number in eight bytes.
pub(crate) fn put_number<O: Output>(number: u64, out: &mut O) -> Result<(), AllocError>
    ensures { OnOk result (Gets O.got out.old (in_eight number) out.new) }
{
    out.put(&number.to_be_bytes())
}

/// Appends a text after its length.
pub(crate) fn put_text<O: Output>(text: &[u8], out: &mut O) -> Result<(), AllocError>
    ensures { OnOk result (Gets O.got out.old (text_bytes text.now) out.new) }
{
    put_count(text.len(), out)?;
    out.put(text)
}

fn put_mask<O: Output>(mask: u128, out: &mut O) -> Result<(), AllocError>
    ensures { OnOk result (Gets O.got out.old (in_sixteen mask) out.new) }
{
    put_number((mask / HALF) as u64, out)?;
    put_number((mask % HALF) as u64, out)
}

/// Appends a state.
pub(crate) fn put_state<O: Output>(state: State, out: &mut O) -> Result<(), AllocError>
    ensures { OnOk result (Gets O.got out.old (state_bytes state) out.new) }
{
    match state {
        State::Initial => out.put(&[0]),
        State::At(mask) => {
            out.put(&[1])?;
            put_mask(mask, out)
        }
    }
}
