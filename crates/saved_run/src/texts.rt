//! The lines that are written about snapshots.
ghost use Rattle.std.specs.Prelude.{◌≡◌, IfOk};
ghost use Rattle.saved_run.specs.Texts.{flaw_name, flaw_text, length_text};

use language_base::Bytes;
use runner_snapshot::Flaw;
use std::alloc::{AllocError, Global};

/// That a snapshot is bad, and its flaw by its name.
pub fn flaw_text(alloc: Global, flaw: Flaw) -> Result<Bytes, AllocError>
    ensures { IfOk result (λ text. text ≡ flaw_text flaw) }
{
    let mut text = String::from_str(alloc, "bad snapshot ")?;
    text.push_str(flaw_name(flaw))?;
    text.push_str("\n")?;
    Ok(Bytes::from_vec(text.into_bytes()))
}

fn flaw_name(flaw: Flaw) -> &'static str
    ensures { result.now ≡ flaw_name flaw }
{
    match flaw {
        Flaw::Long => "long",
        Flaw::Head => "head",
        Flaw::Query => "query",
        Flaw::Form => "form",
        Flaw::Unfit => "unfit",
    }
}

/// How many bytes of a snapshot come after this line.
pub fn length_text(alloc: Global, length: usize) -> Result<Bytes, AllocError>
    ensures { IfOk result (λ text. text ≡ length_text length) }
{
    let text = format!(in alloc; "snapshot {length}\n")?;
    Ok(Bytes::from_vec(text.into_bytes()))
}
