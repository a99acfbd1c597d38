//! What the lines so far leave possible.
ghost use Rattle.std.specs.Prelude.{◌≡◌, ◌+◌, [], ◌∷◌, ◌++◌, false, List, IfOk, length};
ghost use Rattle.dead_lines.specs.Courses.{CanStep, IsAlive, IsCourse, IsCourseFrom};
ghost use Rattle.dead_lines.specs.declared.course.Course.TheVariants.{Alive};
ghost use Rattle.io_edge.specs.Lines.{Shown, text};
ghost use Rattle.item_schema.specs.Items.{IsItemOf};
ghost use Rattle.line_reader.specs.Reading.{item_of};
ghost use Rattle.rate_expr.specs.After.{IsStateOf};
ghost use Rattle.stream_run.specs.Output.{is_header};

use item_schema::Item;
use language_base::Bytes;
use line_reader::{ItemStop, read_item};
use std::alloc::{AllocError, Global};
use symbolic_nfa::{Nfa, State};

/// The first line after which no further items lead to a word of a rate.
#[derive(Drop)]
pub struct DeadLine {
    /// Which line it is, counted from 1. It is 0 if this is so before the first line.
    pub number: u64,
    /// It is empty before the first line.
    pub line: Bytes,
}

/// What the lines so far leave possible.
#[derive(Drop)]
pub enum Course {
    /// Further items lead to a word of the rate, from this state of its automaton.
    Alive(State),
    Dead(DeadLine),
}

/// Before the first line.
pub(crate) fn first_course(alloc: Global, nfa: &Nfa) -> Course
    ensures course { IsCourse nfa.now [] result }
    ensures state { CanStep nfa.now result }
{
    if nfa.extends(State::Initial) {
        return Course::Alive(State::Initial);
    }
    Course::Dead(DeadLine {
        number: 0,
        line: Bytes::from_vec(Vec::new(alloc)),
    })
}

/// After one more line, which is not the header.
pub(crate) fn after_line(
    alloc: Global,
    nfa: &Nfa,
    state: State,
    number: u64,
    line: &[u8],
) -> Result<Course, AllocError>
    requires { IsStateOf nfa.now.sets state }
    ensures course { IfOk result (λ course. (before : List Shown)
        → is_header nfa.now.cells.layout before ≡ false → number ≡ length before + 1
        → IsAlive nfa.now before state
        → IsCourse nfa.now (before ++ text line.now ∷ []) course) }
    ensures state { IfOk result (CanStep nfa.now) }
{
    if line.is_empty() {
        return Ok(Course::Alive(state));
    }
    match read_item(alloc, nfa.cells().schema(), line) {
        Ok(item) => after_item(alloc, nfa, state, &item, number, line),
        Err(ItemStop::Skip(_)) => Ok(Course::Alive(state)),
        Err(ItemStop::Memory) => Err(AllocError),
    }
}

// After one more item, which is that of the line.
fn after_item(
    alloc: Global,
    nfa: &Nfa,
    state: State,
    item: &Item<'_>,
    number: u64,
    line: &[u8],
) -> Result<Course, AllocError>
    requires state { IsStateOf nfa.now.sets state }
    requires item { IsItemOf nfa.now.cells.layout.columns item.now }
    ensures course { IfOk result (λ course. IsCourseFrom nfa.now state item.now number line.now
        course) }
    ensures state { IfOk result (CanStep nfa.now) }
{
    let next = nfa.step(state, nfa.cells().of(item));
    if nfa.extends(next) {
        return Ok(Course::Alive(next));
    }
    Ok(Course::Dead(DeadLine {
        number,
        line: Bytes::from_slice(alloc, line)?,
    }))
}
