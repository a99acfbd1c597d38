//! What is written for a line.
ghost use Rattle.std.specs.Prelude.{◌≡◌, ◌++◌, IfOk, OnOk};
ghost use Rattle.std.specs.Option.{option_copied};
ghost use Rattle.stream_run.specs.Sessions.{text_of};

use crate::replier::Replier;
use crate::session::{Reply, Session};
use query_model::Follower;
use report_writer::{push_answer, push_skip};
use std::alloc::{AllocError, Global};
use value_ops::Value;

impl<F: Follower> Replier for Session<'_, F> {
    ghost use Rattle.std.specs.Prelude.{◌≡◌};
    ghost use Rattle.std.proofs.Common.{◌∙◌, refl};
    ghost use Rattle.stream_run.specs.Sessions.{IsAfter, IsReady, IsSaid, origin_of};
    ghost use Rattle.stream_run.specs.SessionLaws.{after_none, said_nothing};

    ghost stands = { λ first lines now. IsAfter F.follows (origin_of first) lines now };

    ghost says = { λ first lines text. IsSaid F.follows (origin_of first) lines text };

    ghost ready = { λ session. IsReady F.query F.columns F.lost F.sound session };

    ghost position = { λ session. F.position session.follower };

    ghost same = { λ first now. now.checked ≡ first.checked };

    fn reply<'b>(
        &mut self,
        alloc: Global,
        line: &[u8],
        buffer: &'b mut Vec<u8>,
    ) -> Result<&'b [u8], AllocError> {
        let reply = self.line(alloc, line)?;
        reply_text(reply, self.answer(), buffer)
    }

    fn reply_to_long<'b>(&mut self, buffer: &'b mut Vec<u8>) -> Result<&'b [u8], AllocError> {
        let reply = self.long_line();
        reply_text(reply, self.answer(), buffer)
    }

    ghost begins = { after_none F.follows };

    ghost says_nothing = { said_nothing F.follows };

    ghost same_before = { λ first. refl };

    ghost same_after = { λ first now next before after. after ∙ before };
}

#[inline(always)]
fn reply_text<'b>(
    reply: Reply,
    answer: Option<&Value>,
    buffer: &'b mut Vec<u8>,
) -> Result<&'b [u8], AllocError>
    ensures { IfOk result (λ text. text.now ≡ text_of reply (option_copied answer.entry)) }
{
    buffer.clear();
    push_reply(reply, answer, buffer)?;
    Ok(buffer.as_slice())
}

/// Puts what is written for a line behind what is in the buffer.
#[inline(always)]
pub fn push_reply(
    reply: Reply,
    answer: Option<&Value>,
    buffer: &mut Vec<u8>,
) -> Result<(), AllocError>
    ensures { OnOk result (
        buffer.new.items ≡ buffer.old.items ++ text_of reply (option_copied answer.entry)) }
{
    match reply {
        Reply::Silent => Ok(()),
        Reply::Skipped(skip) => push_skip(skip, buffer),
        Reply::Answered => push_answer(answer, buffer),
    }
}
