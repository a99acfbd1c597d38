//! The lines of a stream, of which the first is kept that ends a rate.
ghost use Rattle.std.specs.Option.{option_copied};
ghost use Rattle.std.specs.Prelude.{◌≡◌, ◌<◌, ◌≤◌, ◌+◌, ◌^◌, [], OnOk};
ghost use Rattle.dead_lines.specs.Courses.{dead_line_of};
ghost use Rattle.dead_lines.specs.Watching.{CanTake, TakesLine, Watches, awaits_header};
ghost use Rattle.io_edge.specs.Lines.{long, text};

use crate::course::{Course, DeadLine, after_line, first_course};
use std::alloc::{AllocError, Global};
use stream_run::Replier;
use symbolic_nfa::Nfa;

/// It takes each line and writes nothing.
#[derive(Drop)]
pub(crate) struct Watch<'n> {
    nfa: &'n Nfa,
    lines: u64,
    course: Course,
}

impl<'n> Watch<'n> {
    /// It stands before the first line.
    pub(crate) fn begin(alloc: Global, nfa: &'n Nfa) -> Watch<'n>
        ensures watches { Watches nfa.now [] result }
        ensures ready { CanTake result }
        ensures lines { result.lines ≡ 0 }
    {
        Watch {
            nfa,
            lines: 0,
            course: first_course(alloc, nfa),
        }
    }

    /// The first line after which no further items lead to a word of the rate, if there was one.
    pub(crate) fn dead_line(&self) -> Option<&DeadLine>
        ensures { option_copied result ≡ dead_line_of self.now.course }
    {
        match &self.course {
            Course::Alive(_) => None,
            Course::Dead(dead_line) => Some(dead_line),
        }
    }

    fn take(&mut self, alloc: Global, line: &[u8]) -> Result<(), AllocError>
        requires ready { CanTake self.old }
        requires room { self.old.lines < 2 ^ 62 + 2 ^ 63 }
        ensures takes { OnOk result (TakesLine (text line.now) self.old self.new) }
        ensures ready { OnOk result (CanTake self.new) }
        ensures lines { OnOk result (self.new.lines ≡ self.old.lines + 1) }
    {
        let is_header = self.awaits_header();
        self.lines += 1;
        if is_header {
            return Ok(());
        }
        if let Course::Alive(state) = &self.course {
            self.course = after_line(alloc, self.nfa, *state, self.lines, line)?;
        }
        Ok(())
    }

    fn awaits_header(&self) -> bool
        ensures { result ≡ awaits_header self.now }
    {
        self.lines == 0 && self.nfa.cells().schema().has_header()
    }

    fn take_long(&mut self)
        requires ready { CanTake self.old }
        ensures takes { TakesLine long self.old self.new }
        ensures ready { CanTake self.new }
        ensures lines { self.new.lines ≤ self.old.lines + 1 }
    {
        self.lines = self.lines.saturating_add(1);
    }
}

impl Replier for Watch<'_> {
    ghost use Rattle.std.specs.Prelude.{◌≡◌, []};
    ghost use Rattle.std.proofs.Common.{refl};
    ghost use Rattle.dead_lines.specs.Watching.{CanTake, WatchesOn};
    ghost use Rattle.dead_lines.specs.WatchLaws.{watches_on_none};

    ghost stands = { WatchesOn };

    ghost says = { λ first lines text. text ≡ [] };

    ghost ready = { CanTake };

    ghost position = { λ watch. watch.lines };

    ghost same = { λ first now. Unit {0} };

    fn reply<'b>(
        &mut self,
        alloc: Global,
        line: &[u8],
        buffer: &'b mut Vec<u8>,
    ) -> Result<&'b [u8], AllocError> {
        self.take(alloc, line)?;
        buffer.clear();
        Ok(buffer.as_slice())
    }

    fn reply_to_long<'b>(&mut self, buffer: &'b mut Vec<u8>) -> Result<&'b [u8], AllocError> {
        self.take_long();
        buffer.clear();
        Ok(buffer.as_slice())
    }

    ghost begins = { watches_on_none };

    ghost says_nothing = { λ first. refl };

    ghost same_before = { λ first. tt };

    ghost same_after = { λ first now next before after. tt };
}
