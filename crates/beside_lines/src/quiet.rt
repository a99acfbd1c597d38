//! The lines of a stream, for which nothing is written.
ghost use Rattle.std.specs.Prelude.{◌≡◌, [], IfOk};
ghost use Rattle.std.specs.Option.{option_copied};
ghost use Rattle.query_model.specs.Queries.{plain_of};
ghost use Rattle.query_model.specs.Following.{IsAnswer};
ghost use Rattle.rate_expr.specs.Words.{Word};
ghost use Rattle.stream_run.specs.Sessions.{IsReady, first_origin, origin_of};

use query_model::{Checked, Follower};
use std::alloc::{AllocError, Global};
use stream_run::{Replier, Session};
use value_ops::Value;

/// It takes each line and writes nothing.
#[derive(Drop)]
pub struct Quiet<'q, F: Follower> {
    session: Session<'q, F>,
}

impl<'q, F: Follower> Quiet<'q, F> {
    /// It stands before the first line.
    pub fn begin(checked: &'q Checked, follower: F) -> Quiet<'q, F>
        requires word { F.follows follower [] }
        requires query { F.query follower ≡ plain_of checked.now.main.shape }
        requires columns { F.columns follower ≡ checked.now.layout.columns }
        ensures origin { origin_of result.session ≡ first_origin checked.now follower }
        ensures ready { IsReady F.query F.columns F.lost F.sound result.session }
    {
        Quiet {
            session: Session::begin(checked, follower),
        }
    }

    /// The value on the items so far, if there is one.
    pub fn answer(&self) -> Option<&Value>
        ensures { (word : Word) → F.follows self.now.session.follower word
            → IsAnswer (F.query self.now.session.follower) word (option_copied result) }
    {
        self.session.answer()
    }
}

impl<F: Follower> Replier for Quiet<'_, F> {
    ghost use Rattle.std.specs.Prelude.{◌≡◌, []};
    ghost use Rattle.std.proofs.Common.{◌∙◌, refl};
    ghost use Rattle.stream_run.specs.SessionLaws.{after_none};
    ghost use Rattle.stream_run.specs.Sessions.{IsAfter, IsReady, origin_of};

    ghost stands = { λ first lines now. IsAfter F.follows (origin_of first.session) lines
        now.session };

    ghost says = { λ first lines text. text ≡ [] };

    ghost ready = { λ quiet. IsReady F.query F.columns F.lost F.sound quiet.session };

    ghost position = { λ quiet. F.position quiet.session.follower };

    ghost same = { λ first now. now.session.checked ≡ first.session.checked };

    fn reply<'b>(
        &mut self,
        alloc: Global,
        line: &[u8],
        buffer: &'b mut Vec<u8>,
    ) -> Result<&'b [u8], AllocError> {
        let _reply = self.session.line(alloc, line)?;
        buffer.clear();
        Ok(buffer.as_slice())
    }

    fn reply_to_long<'b>(&mut self, buffer: &'b mut Vec<u8>) -> Result<&'b [u8], AllocError> {
        let _reply = self.session.long_line();
        buffer.clear();
        Ok(buffer.as_slice())
    }

    ghost begins = { λ first. after_none F.follows first.session };

    ghost says_nothing = { λ first. refl };

    ghost same_before = { λ first. refl };

    ghost same_after = { λ first now next before after. after ∙ before };
}
