//! The sessions of queries before the first line, with the engine that goes from item to item.
ghost use Rattle.std.specs.Prelude.{◌≡◌, [], IfOk};
ghost use Rattle.std.specs.List.{AllByRecursion};
ghost use Rattle.eval_runner.specs.Following.{Follows, IsSoundly, columns_of, is_lost, query_of};
ghost use Rattle.stream_run.specs.Sessions.{IsReady};
ghost use Rattle.beside_run.specs.Compiling.{IsNew, monitors_in, monitors_of};

use eval_runner::Runner;
use query_model::Checked;
use std::alloc::{AllocError, Global};
use stream_run::Session;

/// A session for each query.
pub fn sessions_of<'q>(
    alloc: Global,
    queries: &'q [Box<Checked>],
) -> Result<Vec<Session<'q, Runner<'q>>>, AllocError>
    ensures queries { IfOk result (λ sessions.
        monitors_in sessions.items ≡ monitors_of queries.now) }
    ensures new { IfOk result (λ sessions. AllByRecursion (IsNew Follows) sessions.items) }
    ensures ready { IfOk result (λ sessions.
        AllByRecursion (IsReady query_of columns_of is_lost IsSoundly) sessions.items) }
{
    let mut sessions = Vec::new(alloc);
    'queries: for query in queries {
        sessions.push(session_of(alloc, query)?)?;
    }
    Ok(sessions)
}

fn session_of<'q>(
    alloc: Global,
    checked: &'q Checked,
) -> Result<Session<'q, Runner<'q>>, AllocError>
    ensures query { IfOk result (λ session. session.checked.now ≡ checked.now) }
    ensures new { IfOk result (IsNew Follows) }
    ensures ready { IfOk result (IsReady query_of columns_of is_lost IsSoundly) }
{
    let runner = Runner::new(alloc, checked)?;
    Ok(Session::begin(checked, runner))
}
