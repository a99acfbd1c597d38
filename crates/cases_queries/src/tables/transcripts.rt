//! The answers of one engine to the items of a word.
ghost use Rattle.std.specs.Prelude.{◌≡◌, ◌≤◌, ◌<◌, ◌+◌, ◌^◌, [], OnOk};
ghost use Rattle.query_model.specs.Queries.{plain_of};
ghost use Rattle.stream_run.specs.Sessions.{IsReady};

use crate::tables::stop::Stop;
use query_model::{Checked, Follower};
use report_writer::push_answer;
use std::alloc::{AllocError, Global};
use stream_run::{Reply, Session};

/// The most items of a word.
const MOST: u32 = 1_000;

/// The texts of what an engine answered, and the most that it kept.
#[derive(Drop)]
pub(crate) struct Transcript {
    pub(crate) answers: Vec<Vec<u8>>,
    pub(crate) kept: u64,
}

impl Transcript {
    fn new(alloc: Global) -> Result<Box<Transcript>, AllocError> {
        let transcript = Transcript {
            answers: Vec::new(alloc),
            kept: 0,
        };
        Ok(Box::new(alloc, transcript)?)
    }

    fn add<F: Follower>(&mut self, alloc: Global, follower: &F) -> Result<(), AllocError> {
        self.kept = self.kept.max(follower.stored());
        let mut text = Vec::new(alloc);
        push_answer(follower.answer(), &mut text)?;
        self.answers.push(text)?;
        Ok(())
    }
}

/// The answer to the empty word; then after each item the answer and that of a copy; at the end the
/// answer of a copy that is reset to the empty word.
pub(crate) fn transcript_of<F: Follower + Drop>(
    alloc: Global,
    checked: &Checked,
    follower: F,
    items: &str,
) -> Result<Box<Transcript>, Stop>
    requires word { F.follows follower [] }
    requires query { F.query follower ≡ plain_of checked.now.main.shape }
    requires columns { F.columns follower ≡ checked.now.layout.columns }
{
    let mut transcript = Transcript::new(alloc)?;
    let mut session = Session::begin(checked, follower);
    transcript.add(alloc, session.follower())?;
    let mut left = MOST;
    'items: for item in items.split_whitespace() {
        if left == 0 {
            return Err(Stop::Line);
        }
        left -= 1;
        take(alloc, &mut session, item)?;
        add_answers(alloc, &session, &mut transcript)?;
    }
    add_reset(alloc, &session, &mut transcript)?;
    Ok(transcript)
}

// Takes one item.
fn take<F: Follower>(alloc: Global, session: &mut Session<'_, F>, item: &str) -> Result<(), Stop>
    requires ready { IsReady F.query F.columns F.lost F.sound session.old }
    requires room { F.position session.old.follower < 2 ^ 63 }
    ensures ready { OnOk result (IsReady F.query F.columns F.lost F.sound session.new) }
    ensures position { OnOk result
        (F.position session.new.follower ≤ F.position session.old.follower + 1) }
{
    match session.line(alloc, item.as_bytes()) {
        Ok(Reply::Answered) => Ok(()),
        Ok(_) => Err(Stop::Line),
        Err(AllocError) => Err(Stop::Memory),
    }
}

// Adds the answer, and that of a copy.
fn add_answers<F: Follower + Drop>(
    alloc: Global,
    session: &Session<'_, F>,
    transcript: &mut Transcript,
) -> Result<(), AllocError>
    requires { IsReady F.query F.columns F.lost F.sound session.now }
{
    transcript.add(alloc, session.follower())?;
    let copy = session.follower().try_copy(alloc)?;
    transcript.add(alloc, &copy)
}

// Adds the answer of a copy that is reset to the empty word.
fn add_reset<F: Follower + Drop>(
    alloc: Global,
    session: &Session<'_, F>,
    transcript: &mut Transcript,
) -> Result<(), AllocError>
    requires { IsReady F.query F.columns F.lost F.sound session.now }
{
    let mut copy = session.follower().try_copy(alloc)?;
    copy.reset(alloc)?;
    transcript.add(alloc, &copy)
}
