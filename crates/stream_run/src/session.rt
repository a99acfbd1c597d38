//! The lines of a stream, and the value of a query on the items among them.
ghost use Rattle.std.specs.Prelude.{◌≡◌, ◌⊎◌, ◌<◌, ◌≤◌, ◌+◌, ◌^◌, [], true, false, IfOk, OnOk};
ghost use Rattle.std.specs.Prelude.{OnErr};
ghost use Rattle.std.specs.Option.{option_copied};
ghost use Rattle.io_edge.specs.Lines.{long, text};
ghost use Rattle.rate_expr.specs.Words.{Word};
ghost use Rattle.query_model.specs.Checked.{IsChecked};
ghost use Rattle.query_model.specs.Following.{IsAnswer};
ghost use Rattle.query_model.specs.Queries.{plain_of};
ghost use Rattle.stream_run.specs.Sessions.{FollowsOn, IsReady, IsReplyTo, awaits_header, read_by};

use line_reader::{Cause, ItemStop, Skip, read_item};
use query_model::{Checked, Follower};
use std::alloc::{AllocError, Global};
use value_ops::Value;

/// How a line that is too long is skipped.
const TOO_LONG: Skip = Skip {
    cause: Cause::Long,
    column: 0,
};

/// What a line was.
#[derive(Clone, Copy, Debug, PartialEq, Eq)]
pub enum Reply {
    /// The header, or an empty line.
    Silent,
    /// No item.
    Skipped(Skip),
    /// An item. There is a new answer after it.
    Answered,
}

/// The lines of the query's stream so far: a follower of their items, and whether a line has come.
#[derive(Drop)]
pub struct Session<'q, F: Follower> {
    checked: &'q Checked,
    follower: F,
    began: bool,
}

impl<'q, F: Follower> Session<'q, F> {
    /// A session before the first line. It takes no memory.
    pub fn begin(checked: &'q Checked, follower: F) -> Session<'q, F>
        requires word { F.follows follower [] }
        requires query { F.query follower ≡ plain_of checked.now.main.shape }
        requires columns { F.columns follower ≡ checked.now.layout.columns }
        ensures { result ≡ record { checked = checked.entry; follower = follower; began = false } }
    {
        Session::resume(checked, follower, false)
    }

    /// A session that goes on from what the follower follows, and after a line if `began`. It takes
    /// no memory.
    pub fn resume(checked: &'q Checked, follower: F, began: bool) -> Session<'q, F>
        requires query { F.query follower ≡ plain_of checked.now.main.shape }
        requires columns { F.columns follower ≡ checked.now.layout.columns }
        requires found { (F.lost follower ≡ false) × F.sound follower }
        requires room { F.position follower ≤ 2 ^ 62 }
        ensures session { result
            ≡ record { checked = checked.entry; follower = follower; began = began } }
        ensures ready { IsReady F.query F.columns F.lost F.sound result }
    {
        Session {
            checked,
            follower,
            began,
        }
    }

    /// Takes a line without its line end. Out of memory, either nothing has changed or the follower
    /// is lost.
    pub fn line(&mut self, alloc: Global, line: &[u8]) -> Result<Reply, AllocError>
        requires ready { IsReady F.query F.columns F.lost F.sound self.old }
        // A run goes on from at most 2^62 items, and takes fewer than 2^63.
        requires room { F.position self.old.follower < 2 ^ 62 + 2 ^ 63 }
        ensures reply { IfOk result (IsReplyTo (read_by self.old (text line.now))) }
        ensures follows { OnOk result (FollowsOn F.follows self.old.checked.now.layout.columns
            (read_by self.old (text line.now)) self.old.follower self.new.follower) }
        ensures began { OnOk result (self.new.began ≡ true) }
        ensures err { OnErr result ((self.new ≡ self.old) ⊎ (F.lost self.new.follower ≡ true)) }

        ensures same { self.new.checked ≡ self.old.checked }
        ensures checked { IsChecked self.old.checked.now }
        ensures ready { OnOk result (IsReady F.query F.columns F.lost F.sound self.new) }
        ensures position { OnOk result
            (F.position self.new.follower ≤ F.position self.old.follower + 1) }
    {
        if self.awaits_header() || line.is_empty() {
            self.began = true;
            return Ok(Reply::Silent);
        }
        match read_item(alloc, self.checked.schema(), line) {
            Ok(item) => {
                self.began = true;
                self.follower.step(alloc, &item)?;
                Ok(Reply::Answered)
            }
            Err(ItemStop::Skip(skip)) => {
                self.began = true;
                Ok(Reply::Skipped(skip))
            }
            Err(ItemStop::Memory) => Err(AllocError),
        }
    }

    /// Takes a line that is too long.
    pub fn long_line(&mut self) -> Reply
        ensures reply { IsReplyTo (read_by self.old long) result }
        ensures follows { self.new ≡ record self.old { began = true } }
    {
        let is_header = self.awaits_header();
        self.began = true;
        if is_header {
            return Reply::Silent;
        }
        Reply::Skipped(TOO_LONG)
    }

    /// The value on the items so far, if there is one.
    pub fn answer(&self) -> Option<&Value>
        ensures answer { (word : Word) → F.follows self.now.follower word
            → IsAnswer (F.query self.now.follower) word (option_copied result) }
    {
        self.follower.answer()
    }

    /// What follows the items.
    pub fn follower(&self) -> &F
        ensures { result.now ≡ self.now.follower }
    {
        &self.follower
    }

    /// Whether a line has come.
    pub fn began(&self) -> bool
        ensures { result ≡ self.now.began }
    {
        self.began
    }

    fn awaits_header(&self) -> bool
        ensures header { result ≡ awaits_header self.now }
        ensures checked { IsChecked self.now.checked.now }
    {
        self.checked.schema().has_header() && !self.began
    }
}
