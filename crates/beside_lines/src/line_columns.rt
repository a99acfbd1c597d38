//! The columns of a line: what the run of each query writes for it.
ghost use Rattle.std.specs.Prelude.{◌≡◌, ◌<◌, ◌+◌, ◌^◌, ◌++◌, OnOk};
ghost use Rattle.std.specs.List.{AllByRecursion};
ghost use Rattle.std.specs.Option.{option_copied};
ghost use Rattle.io_edge.specs.Lines.{long, text};
ghost use Rattle.stream_run.specs.Sessions.{IsReady, text_of};
ghost use Rattle.beside_lines.specs.Besides.{column};
ghost use Rattle.beside_lines.specs.Filling.{AllInTurn, Fills, most};

use query_model::Follower;
use std::alloc::{AllocError, Global};
use stream_run::{Reply, Session, push_reply};
use value_ops::Value;

/// Lets every run take the line, and puts a column for each after what is in the buffer.
pub fn push_columns<F: Follower>(
    alloc: Global,
    sessions: &mut [Session<'_, F>],
    line: &[u8],
    buffer: &mut Vec<u8>,
) -> Result<(), AllocError>
    requires ready { AllByRecursion (IsReady F.query F.columns F.lost F.sound) sessions.old }
    requires room { most F.position sessions.old < 2 ^ 62 + 2 ^ 63 }
    ensures filled { OnOk result (AllInTurn (Fills F.follows F.position (text line.now))
        sessions.old sessions.new buffer.old.items buffer.new.items) }
    ensures ready { OnOk result
        (AllByRecursion (IsReady F.query F.columns F.lost F.sound) sessions.new) }
{
    'sessions: for session in sessions.iter_mut() {
        push_line(alloc, session, line, buffer)?;
    }
    Ok(())
}

/// The same of a line that is too long.
pub fn push_long_columns<F: Follower>(
    sessions: &mut [Session<'_, F>],
    buffer: &mut Vec<u8>,
) -> Result<(), AllocError>
    requires ready { AllByRecursion (IsReady F.query F.columns F.lost F.sound) sessions.old }
    ensures filled { OnOk result (AllInTurn (Fills F.follows F.position long)
        sessions.old sessions.new buffer.old.items buffer.new.items) }
    ensures ready { OnOk result
        (AllByRecursion (IsReady F.query F.columns F.lost F.sound) sessions.new) }
{
    'sessions: for session in sessions.iter_mut() {
        push_long_line(session, buffer)?;
    }
    Ok(())
}

// Lets a run take the line, and puts its column after what is in the buffer.
fn push_line<F: Follower>(
    alloc: Global,
    session: &mut Session<'_, F>,
    line: &[u8],
    buffer: &mut Vec<u8>,
) -> Result<(), AllocError>
    requires ready { IsReady F.query F.columns F.lost F.sound session.old }
    requires room { F.position session.old.follower < 2 ^ 62 + 2 ^ 63 }
    ensures filled { OnOk result (Fills F.follows F.position (text line.now)
        session.old session.new buffer.old.items buffer.new.items) }
    ensures ready { OnOk result (IsReady F.query F.columns F.lost F.sound session.new) }
{
    let reply = session.line(alloc, line)?;
    push_column(reply, session.answer(), buffer)
}

// The same of a line that is too long.
fn push_long_line<F: Follower>(
    session: &mut Session<'_, F>,
    buffer: &mut Vec<u8>,
) -> Result<(), AllocError>
    requires ready { IsReady F.query F.columns F.lost F.sound session.old }
    ensures filled { OnOk result (Fills F.follows F.position long
        session.old session.new buffer.old.items buffer.new.items) }
    ensures ready { OnOk result (IsReady F.query F.columns F.lost F.sound session.new) }
{
    let reply = session.long_line();
    push_column(reply, session.answer(), buffer)
}

// A tab and what a run writes, without its LF. Where it writes nothing, there is no column.
fn push_column(reply: Reply, answer: Option<&Value>, buffer: &mut Vec<u8>) -> Result<(), AllocError>
    ensures { OnOk result (buffer.new.items
        ≡ buffer.old.items ++ column (text_of reply (option_copied answer.entry))) }
{
    if reply == Reply::Silent {
        return Ok(());
    }
    buffer.extend_from_slice(b"\t")?;
    push_reply(reply, answer, buffer)?;
    buffer.pop();
    Ok(())
}
