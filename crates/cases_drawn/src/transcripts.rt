//! The answers of one engine to the items of a case.
ghost use Rattle.std.specs.Prelude.{◌≡◌, ◌≤◌, ◌<◌, ◌+◌, ◌^◌, [], OnOk};
ghost use Rattle.query_model.specs.Queries.{plain_of};
ghost use Rattle.stream_run.specs.Sessions.{IsReady};

use crate::memory::Kept;
use crate::texts::Texts;
use io_edge::{Line, Lines, SteadySource};
use query_model::{Checked, Follower};
use report_writer::push_answer;
use std::alloc::{AllocError, Global};
use stream_run::{Reply, Session};

/// The most items that an engine is asked about, and the most lines on which they stand.
const ITEMS: usize = 8;

const LINES: u32 = 1_000;

/// What an engine answered, a line for each answer.
#[derive(Drop)]
pub(crate) struct Transcript {
    /// The answer to the empty word.
    pub(crate) begun: Vec<u8>,
    /// The answers after each item.
    pub(crate) answers: Vec<u8>,
    /// The answers of a copy after each item.
    pub(crate) copies: Vec<u8>,
    /// The answer at the end of a copy that is reset to the empty word.
    pub(crate) back: Vec<u8>,
    /// What was kept after each item.
    pub(crate) kept: Vec<Kept>,
}

/// The answers of an engine to the first items.
pub(crate) fn transcript_of<F: Follower + Drop>(
    alloc: Global,
    checked: &Checked,
    follower: F,
    items: &[u8],
) -> Result<Transcript, AllocError>
    requires word { F.follows follower [] }
    requires query { F.query follower ≡ plain_of checked.now.main.shape }
    requires columns { F.columns follower ≡ checked.now.layout.columns }
{
    let mut transcript = Transcript {
        begun: Vec::new(alloc),
        answers: Vec::new(alloc),
        copies: Vec::new(alloc),
        back: Vec::new(alloc),
        kept: Vec::new(alloc),
    };
    push_answer(follower.answer(), &mut transcript.begun)?;
    let mut texts = Texts::new(alloc, checked.schema());
    let mut session = Session::begin(checked, follower);
    let mut source = SteadySource::new(alloc, items)?;
    let mut lines = Lines::new(alloc)?;
    let mut left = LINES;
    'lines: while left > 0 && transcript.kept.len() < ITEMS {
        left -= 1;
        match take(alloc, &mut session, &mut lines, &mut source, &mut texts)? {
            Some(Reply::Answered) => add_answers(alloc, &session, texts.count(), &mut transcript)?,
            Some(_) => {}
            None => break,
        }
    }
    add_reset(alloc, &session, &mut transcript)?;
    Ok(transcript)
}

// Takes one line, if there is one.
fn take<F: Follower>(
    alloc: Global,
    session: &mut Session<'_, F>,
    lines: &mut Lines,
    source: &mut SteadySource,
    texts: &mut Texts<'_>,
) -> Result<Option<Reply>, AllocError>
    requires ready { IsReady F.query F.columns F.lost F.sound session.old }
    requires room { F.position session.old.follower < 2 ^ 63 }
    ensures ready { OnOk result (IsReady F.query F.columns F.lost F.sound session.new) }
    ensures position { OnOk result
        (F.position session.new.follower ≤ F.position session.old.follower + 1) }
{
    match lines.next(source) {
        Ok(Line::Whole(line)) => match session.line(alloc, line) {
            Ok(reply) => {
                texts.add(alloc, reply, line)?;
                Ok(Some(reply))
            }
            Err(AllocError) => Err(AllocError),
        },
        Ok(Line::Long) => Ok(Some(session.long_line())),
        _ => Ok(None),
    }
}

// Adds the answer and that of a copy, and the greater of what both keep.
fn add_answers<F: Follower + Drop>(
    alloc: Global,
    session: &Session<'_, F>,
    texts: u32,
    transcript: &mut Transcript,
) -> Result<(), AllocError>
    requires { IsReady F.query F.columns F.lost F.sound session.now }
{
    let follower = session.follower();
    let copy = follower.try_copy(alloc)?;
    push_answer(follower.answer(), &mut transcript.answers)?;
    push_answer(copy.answer(), &mut transcript.copies)?;
    let stored = follower.stored().max(copy.stored());
    Ok(transcript.kept.push(Kept { stored, texts })?)
}

// Adds the answer of a copy that is reset to the empty word.
fn add_reset<F: Follower + Drop>(
    alloc: Global,
    session: &Session<'_, F>,
    transcript: &mut Transcript,
) -> Result<(), AllocError>
    requires { IsReady F.query F.columns F.lost F.sound session.now }
{
    let mut copy = session.follower().try_copy(alloc)?;
    copy.reset(alloc)?;
    push_answer(copy.answer(), &mut transcript.back)
}
