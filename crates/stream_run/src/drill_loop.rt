//! The drill of a query: its answers to items that a seed draws, summed up.
ghost use Rattle.std.specs.Prelude.{◌≡◌, ◌<◌, ◌≤◌, ◌+◌, ◌^◌, ℕ, List, [], ◌∷◌, IfOk, OnOk, length};
ghost use Rattle.io_edge.specs.Lines.{text};
ghost use Rattle.item_drill.specs.Draws.{state_after};
ghost use Rattle.item_drill.specs.Lines.{bytes_of, line_from};
ghost use Rattle.query_model.specs.Monitors.{monitor_of};
ghost use Rattle.query_model.specs.Queries.{plain_of};
ghost use Rattle.stream_run.specs.Drilled.{drilled};
ghost use Rattle.stream_run.specs.Drilling.{drilled_lines};
ghost use Rattle.item_drill.specs.Drillable.{IsDrillable};
ghost use Rattle.stream_run.specs.Meanings.{IsMeaning, Meaning};
ghost use Rattle.stream_run.specs.Sessions.{IsAfter, IsReady, Takes, first_origin};

use crate::session::Session;
use item_drill::Drill;
use language_base::Bytes;
use query_model::{Checked, Follower};
use report_writer::drill_text;
use std::alloc::{AllocError, Global};

/// Feeds the query `count` items that the seed draws, and gives the line that sums up its answers.
pub fn drill<F: Follower + Drop>(
    alloc: Global,
    checked: &Checked,
    follower: F,
    count: u32,
    seed: u64,
) -> Result<Bytes, AllocError>
    requires word { F.follows follower [] }
    requires query { F.query follower ≡ plain_of checked.now.main.shape }
    requires columns { F.columns follower ≡ checked.now.layout.columns }
    requires drillable { IsDrillable checked.now.layout }
    ensures { IfOk result (λ line. (meaning : Meaning) → IsMeaning (monitor_of checked.now) meaning
        → line ≡ drilled meaning count seed) }
{
    let mut drill = Drill::new(checked.schema(), seed);
    let mut session = begin(alloc, checked, follower, &drill)?;
    let mut defined = 0;
    'items: for _ in 0..count {
        take_next(alloc, &mut drill, &mut session)?;
        defined += u32::from(session.answer().is_some());
    }
    drill_text(alloc, count, defined, session.answer())
}

// The session that has taken the header, if there is one.
fn begin<'c, F: Follower + Drop>(
    alloc: Global,
    checked: &'c Checked,
    follower: F,
    drill: &Drill<'_>,
) -> Result<Session<'c, F>, AllocError>
    requires word { F.follows follower [] }
    requires query { F.query follower ≡ plain_of checked.now.main.shape }
    requires columns { F.columns follower ≡ checked.now.layout.columns }
    requires layout { drill.now.layout ≡ checked.now.layout }
    ensures after { IfOk result (IsAfter F.follows (first_origin checked.now follower)
        (drilled_lines checked.now.layout 0 drill.now.state)) }
    ensures ready { IfOk result (IsReady F.query F.columns F.lost F.sound) }
    ensures position { IfOk result (λ session. F.position session.follower ≤ 1) }
{
    let mut session = Session::begin(checked, follower);
    take_header(alloc, checked, drill, &mut session)?;
    Ok(session)
}

// Takes the header, if there is one.
fn take_header<F: Follower>(
    alloc: Global,
    checked: &Checked,
    drill: &Drill<'_>,
    session: &mut Session<'_, F>,
) -> Result<(), AllocError>
    requires layout { drill.now.layout ≡ checked.now.layout }
    requires ready { IsReady F.query F.columns F.lost F.sound session.old }
    requires room { F.position session.old.follower < 2 ^ 63 }
    ensures after { OnOk result ((first : F)
        → IsAfter F.follows (first_origin checked.now first) [] session.old
        → IsAfter F.follows (first_origin checked.now first)
        (drilled_lines checked.now.layout 0 drill.now.state) session.new) }
    ensures ready { OnOk result (IsReady F.query F.columns F.lost F.sound session.new) }
    ensures position { OnOk result
        (F.position session.new.follower ≤ F.position session.old.follower + 1) }
{
    if !checked.schema().has_header() {
        return Ok(());
    }
    let line = drill.header(alloc)?;
    take(alloc, session, line.as_slice())
}

// Takes the next line of the drill.
fn take_next<F: Follower>(
    alloc: Global,
    drill: &mut Drill<'_>,
    session: &mut Session<'_, F>,
) -> Result<(), AllocError>
    requires ready { IsReady F.query F.columns F.lost F.sound session.old }
    requires room { F.position session.old.follower < 2 ^ 63 }
    ensures takes { OnOk result (Takes F.follows
        (text (line_from drill.old.layout.columns drill.old.state)) session.old session.new) }
    ensures drill { OnOk result (drill.new ≡ record drill.old {
      state = state_after (length drill.old.layout.columns) drill.old.state;
    }) }
    ensures ready { OnOk result (IsReady F.query F.columns F.lost F.sound session.new) }
    ensures position { OnOk result
        (F.position session.new.follower ≤ F.position session.old.follower + 1) }
{
    let line = drill.line(alloc)?;
    take(alloc, session, line.as_slice())
}

// Takes a line that ends with an LF.
fn take<F: Follower>(
    alloc: Global,
    session: &mut Session<'_, F>,
    line: &[u8],
) -> Result<(), AllocError>
    requires ends { (shown : List ℕ) × (line.now ≡ bytes_of (shown ∷ [])) }
    requires ready { IsReady F.query F.columns F.lost F.sound session.old }
    requires room { F.position session.old.follower < 2 ^ 63 }
    ensures takes { OnOk result ((shown : List ℕ) → line.now ≡ bytes_of (shown ∷ [])
        → Takes F.follows (text shown) session.old session.new) }
    ensures ready { OnOk result (IsReady F.query F.columns F.lost F.sound session.new) }
    ensures position { OnOk result
        (F.position session.new.follower ≤ F.position session.old.follower + 1) }
{
    let _reply = session.line(alloc, &line[..line.len() - 1])?;
    Ok(())
}
