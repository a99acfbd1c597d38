//! The lines of a stream, each written with its answer.
ghost use Rattle.std.specs.Prelude.{◌≡◌, []};
ghost use Rattle.query_model.specs.Queries.{plain_of};
ghost use Rattle.view_lines.specs.Standing.{IsReadyToView};
ghost use Rattle.view_lines.specs.Views.{first_view, origin_of_view};

use crate::Form;
use crate::reply_row::{begin_text, push_long_reply, push_reply};
use crate::sheet::Sheet;
use item_schema::Schema;
use query_model::{Checked, Follower};
use std::alloc::{AllocError, Global};
use stream_run::{Replier, Session};

/// It writes each line in one form: an item with the answer after it, and a line that is skipped
/// with the reason. Nothing is written for the header and for an empty line; but before what is
/// written of the first line of all come the names, where the form has a row for them.
#[derive(Drop)]
pub struct View<'q, F: Follower> {
    session: Session<'q, F>,
    schema: &'q Schema,
    sheet: Sheet,
}

impl<'q, F: Follower> View<'q, F> {
    /// It stands before the first line. The numbers of answers have this many digits after their
    /// points.
    pub fn begin(
        alloc: Global,
        checked: &'q Checked,
        follower: F,
        form: Form,
        digits: u8,
    ) -> View<'q, F>
        requires word { F.follows follower [] }
        requires query { F.query follower ≡ plain_of checked.now.main.shape }
        requires columns { F.columns follower ≡ checked.now.layout.columns }
        ensures origin { origin_of_view result ≡ first_view checked.now follower form digits }
        ensures ready { IsReadyToView F.query F.columns F.lost F.sound result }
    {
        View {
            session: Session::begin(checked, follower),
            schema: checked.schema(),
            sheet: Sheet::new(alloc, form, digits),
        }
    }
}

impl<F: Follower> Replier for View<'_, F> {
    ghost use Rattle.std.specs.Prelude.{◌≡◌};
    ghost use Rattle.std.proofs.Common.{◌∙◌, refl};
    ghost use Rattle.view_lines.specs.Standing.{IsReadyToView, IsViewAfter};
    ghost use Rattle.view_lines.specs.ViewLaws.{view_none, view_stands};
    ghost use Rattle.view_lines.specs.Views.{AreViewed, origin_of_view};

    ghost stands = { IsViewAfter F.follows };

    ghost says = { λ first lines text. AreViewed F.follows (origin_of_view first) lines text };

    ghost ready = { IsReadyToView F.query F.columns F.lost F.sound };

    ghost position = { λ view. F.position view.session.follower };

    ghost same = { λ first now. now.session.checked ≡ first.session.checked };

    fn reply<'b>(
        &mut self,
        alloc: Global,
        line: &[u8],
        buffer: &'b mut Vec<u8>,
    ) -> Result<&'b [u8], AllocError> {
        begin_text(&self.session, self.schema, &mut self.sheet, buffer)?;
        let reply = self.session.line(alloc, line)?;
        let answer = self.session.answer();
        push_reply(
            alloc,
            self.schema,
            line,
            reply,
            answer,
            &mut self.sheet,
            buffer,
        )?;
        Ok(buffer.as_slice())
    }

    fn reply_to_long<'b>(&mut self, buffer: &'b mut Vec<u8>) -> Result<&'b [u8], AllocError> {
        begin_text(&self.session, self.schema, &mut self.sheet, buffer)?;
        let reply = self.session.long_line();
        push_long_reply(self.schema, reply, &mut self.sheet, buffer)?;
        Ok(buffer.as_slice())
    }

    ghost begins = { view_stands F.follows };

    ghost says_nothing = { view_none F.follows };

    ghost same_before = { λ first. refl };

    ghost same_after = { λ first now next before after. after ∙ before };
}
