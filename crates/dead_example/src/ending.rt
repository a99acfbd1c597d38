//! After which items a query has no value any more.
ghost use Rattle.std.specs.Prelude.{IfOk};
ghost use Rattle.dead_example.specs.Endings.{IsEndingOf};
ghost use Rattle.dead_example.specs.Rates.{IsEndingOfRate};
ghost use Rattle.query_model.specs.Monitors.{monitor_of};
ghost use Rattle.rate_expr.specs.Paths.{AreOf};
ghost use Rattle.rate_expr.specs.Rates.{Regex};

use crate::automaton::automaton_of;
use crate::lines::lines_of;
use dead_words::{Outlook, outlook_of};
use language_base::Bytes;
use query_model::Checked;
use std::alloc::{AllocError, Global};
use symbolic_nfa::Nfa;

/// How long further items can lead to a value of a query.
#[derive(Drop)]
pub enum Ending {
    /// Not after the items of these lines; after fewer items some lead to a word of its rate.
    Lines(Vec<Bytes>),
    /// After all items some lead to a word of its rate.
    Never,
    /// The search came to no end, or the line of an item is too long or cannot be shown.
    Unknown,
}

/// Searches words of up to 64 items, as `dead_words` does.
pub fn ending_of(alloc: Global, query: &Checked) -> Result<Ending, AllocError>
    ensures { IfOk result (IsEndingOf (monitor_of query.now)) }
{
    match automaton_of(alloc, query.schema(), query.main())? {
        Some(nfa) => ending_in(alloc, &nfa),
        None => Ok(Ending::Unknown),
    }
}

// The same for the rate of an automaton.
fn ending_in(alloc: Global, nfa: &Nfa) -> Result<Ending, AllocError>
    requires { (rate : Regex) × AreOf nfa.now.sets rate }
    ensures { (rate : Regex) → AreOf nfa.now.sets rate
        → IfOk result (IsEndingOfRate nfa.now.cells.layout.columns rate) }
{
    match outlook_of(alloc, nfa)? {
        Outlook::Ends(places) => match lines_of(alloc, nfa.cells(), &places)? {
            Some(lines) => Ok(Ending::Lines(lines)),
            None => Ok(Ending::Unknown),
        },
        Outlook::GoesOn => Ok(Ending::Never),
        Outlook::Undecided => Ok(Ending::Unknown),
    }
}
