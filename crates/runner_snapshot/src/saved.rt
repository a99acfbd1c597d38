//! A snapshot that was read.
ghost use Rattle.std.specs.Prelude.{◌≡◌};

use crate::RunnerDump;
use value_ops::Bytes;

/// A query text, whether lines were taken, and where a runner stood.
#[derive(Drop)]
pub struct Saved {
    text: Bytes,
    began: bool,
    dump: Box<RunnerDump>,
}

impl Saved {
    ghost use Rattle.runner_snapshot.specs.Bytes.{snapshot_with};
    ghost use Rattle.runner_snapshot.specs.Plain.{plain_runner};
    ghost use Rattle.runner_snapshot.specs.Saved.{snapshot_of};

    pub(crate) fn new(text: Bytes, began: bool, dump: Box<RunnerDump>) -> Saved
        ensures { snapshot_of result ≡ snapshot_with text began (plain_runner dump.value) }
    {
        Saved { text, began, dump }
    }

    /// The text of the query.
    pub fn text(&self) -> &[u8]
        ensures { result.now ≡ (snapshot_of self.now).text }
    {
        self.text.as_slice()
    }

    /// Whether lines were taken.
    pub fn began(&self) -> bool
        ensures { result ≡ (snapshot_of self.now).began }
    {
        self.began
    }

    /// Where the runner stood.
    pub fn dump(&self) -> &RunnerDump
        ensures { plain_runner result.now ≡ (snapshot_of self.now).dump }
    {
        &self.dump
    }
}
