//! What a command says about a text.
ghost use Rattle.std.specs.Prelude.{IfOk};
ghost use Rattle.expand_run.specs.Replies.{IsReplyTo};

use crate::command::Command;
use crate::explained::stop_explanation;
use crate::mark::mark_text;
use crate::origin_lines::origin_lines;
use crate::refusal_text::stop_text;
use language_base::Bytes;
use std::alloc::{AllocError, Global};
use template_expansion::expand;

#[derive(Drop)]
pub(crate) enum Reply {
    /// What was asked for.
    Answer(Bytes),
    /// Why the text is refused.
    Refusal(Bytes),
}

pub(crate) fn reply_to(alloc: Global, command: Command, text: &[u8]) -> Result<Reply, AllocError>
    ensures { IfOk result (IsReplyTo command text.now) }
{
    match command {
        Command::Expand => plain_reply(alloc, text),
        Command::Origins => origins_reply(alloc, text),
        Command::Explain => explaining_reply(alloc, text),
        Command::Mark(place) => Ok(Reply::Answer(mark_text(alloc, text, place)?)),
    }
}

fn plain_reply(alloc: Global, text: &[u8]) -> Result<Reply, AllocError>
    ensures { IfOk result (IsReplyTo Command.Expand text.now) }
{
    match expand(alloc, text) {
        Ok(plain) => Ok(Reply::Answer(plain)),
        Err(stop) => Ok(Reply::Refusal(stop_text(alloc, stop)?)),
    }
}

fn origins_reply(alloc: Global, text: &[u8]) -> Result<Reply, AllocError>
    ensures { IfOk result (IsReplyTo Command.Origins text.now) }
{
    match origin_lines(alloc, text) {
        Ok(lines) => Ok(Reply::Answer(lines)),
        Err(stop) => Ok(Reply::Refusal(stop_text(alloc, stop)?)),
    }
}

// Nothing is said of a text that is not refused.
fn explaining_reply(alloc: Global, text: &[u8]) -> Result<Reply, AllocError>
    ensures { IfOk result (IsReplyTo Command.Explain text.now) }
{
    match expand(alloc, text) {
        Ok(_plain) => Ok(Reply::Answer(Bytes::from_vec(Vec::new(alloc)))),
        Err(stop) => Ok(Reply::Refusal(stop_explanation(alloc, text, stop)?)),
    }
}
