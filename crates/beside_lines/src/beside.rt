//! The lines of a stream, and beside each what the runs of queries write.

use crate::line_columns::{push_columns, push_long_columns};
use query_model::Follower;
use std::alloc::{AllocError, Global};
use stream_run::{Replier, Session};

/// It writes each line again. After it come, for each query, a tab and what a run of it writes for
/// the line; after the header and an empty line, for which a run writes nothing, comes nothing.
#[derive(Drop)]
pub struct Beside<'q, F: Follower> {
    /// The runs of the queries.
    pub sessions: Vec<Session<'q, F>>,
}

impl<F: Follower> Replier for Beside<'_, F> {
    ghost use Rattle.std.specs.List.{AllByRecursion};
    ghost use Rattle.stream_run.specs.Sessions.{IsReady};
    ghost use Rattle.beside_lines.specs.Besides.{AreBeside};
    ghost use Rattle.beside_lines.specs.Filling.{AreAfter, all_after_none, most, none_beside};
    ghost use Rattle.beside_lines.specs.Filling.{origins_of};

    ghost stands = { λ first lines now. AreAfter F.follows first.sessions.items lines
        now.sessions.items };

    ghost says = { λ first lines text. AreBeside F.follows (origins_of first.sessions.items) lines
        text };

    ghost ready = { λ beside. AllByRecursion (IsReady F.query F.columns F.lost F.sound)
        beside.sessions.items };

    ghost position = { λ beside. most F.position beside.sessions.items };

    // Nobody goes on with it after a fault.
    ghost same = { λ first now. Unit {0} };

    fn reply<'b>(
        &mut self,
        alloc: Global,
        line: &[u8],
        buffer: &'b mut Vec<u8>,
    ) -> Result<&'b [u8], AllocError> {
        buffer.clear();
        buffer.extend_from_slice(line)?;
        push_columns(alloc, &mut self.sessions, line, buffer)?;
        buffer.extend_from_slice(b"\n")?;
        Ok(buffer.as_slice())
    }

    fn reply_to_long<'b>(&mut self, buffer: &'b mut Vec<u8>) -> Result<&'b [u8], AllocError> {
        buffer.clear();
        push_long_columns(&mut self.sessions, buffer)?;
        buffer.extend_from_slice(b"\n")?;
        Ok(buffer.as_slice())
    }

    ghost begins = { λ first. all_after_none F.follows first.sessions.items };

    ghost says_nothing = { λ first. none_beside F.follows first.sessions.items };

    ghost same_before = { λ first. tt };

    ghost same_after = { λ first now next before after. tt };
}
