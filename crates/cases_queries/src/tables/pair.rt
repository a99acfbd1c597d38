//! Both engines on one word.

use crate::tables::stop::Stop;
use crate::tables::transcripts::{Transcript, transcript_of};
use eval_runner::Runner;
use memory_bound::slots;
use query_model::Checked;
use slow_eval::Slow;
use std::alloc::Global;

/// What was found on a word.
#[derive(Clone, Copy, Default)]
pub(crate) struct Seen {
    pub(crate) answers: u32,
    pub(crate) values: u32,
    /// How often the engines answered differently, or more was kept than the bound allows.
    pub(crate) faults: u32,
}

/// Compares the answers after each item, and on the empty word. At most this many runners for keys
/// are kept.
pub(crate) fn side_by_side(
    alloc: Global,
    checked: &Checked,
    items: &str,
    keys: u32,
) -> Result<Seen, Stop> {
    let slow = Slow::new(alloc, checked)?;
    let wanted = transcript_of(alloc, checked, slow, items)?;
    let runner = Runner::new(alloc, checked)?;
    let transcript = transcript_of(alloc, checked, runner, items)?;
    let mut seen = compared(&transcript, &wanted);
    let bound = u64::from(slots(checked.main())).saturating_mul(u64::from(keys).saturating_add(1));
    if transcript.kept > bound {
        seen.faults = seen.faults.saturating_add(1);
    }
    Ok(seen)
}

fn compared(transcript: &Transcript, wanted: &Transcript) -> Seen {
    let mut seen = Seen {
        answers: 0,
        values: 0,
        faults: 0,
    };
    if transcript.answers.len() != wanted.answers.len() {
        seen.faults = 1;
    }
    'answers: for (i, answer) in transcript.answers.iter().enumerate() {
        seen.answers = seen.answers.saturating_add(1);
        if answer.as_slice() != b"undefined\n".as_slice() {
            seen.values = seen.values.saturating_add(1);
        }
        match wanted.answers.get(i) {
            Some(other) if *other == *answer => {}
            _ => seen.faults = seen.faults.saturating_add(1),
        }
    }
    seen
}
