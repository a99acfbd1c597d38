//! The line under way: a partial line that earlier reads have begun, in a buffer for the longest
//! line that is shown.
ghost use Rattle.std.specs.Prelude.{◌≡◌, ℕ, ◌+◌, ◌≤◌, [], ◌++◌, length, IfOk, vec_capacity};
ghost use Rattle.std.specs.Io.BufRead.{strip_last};
ghost use Rattle.io_edge.specs.Lines.{ended_by_lf, ended_by_end};
ghost use Rattle.io_edge.specs.Limits.{max_count};
ghost use Rattle.io_edge.specs.Started.{StandsFor};
ghost use Rattle.io_edge.specs.Answered.{shown_by};

use std::alloc::{AllocError, Global};
use std::marker::Model;

/// The most bytes before its line end that a line may have to be shown.
pub(crate) const MAX_LINE: usize = 65_536;

/// How a line is answered.
#[derive(Clone, Copy)]
pub(crate) enum Answer {
    Whole,
    Long,
}

/// A line that was answered stays in the buffer until the next bytes come. Bytes that would make a
/// line too long are only counted.
#[derive(Drop)]
pub(crate) struct UnderWay {
    bytes: Vec<u8>,
    beyond: u64,
    is_shown: bool,
}

impl Model for UnderWay {
    ghost use Rattle.io_edge.specs.Started.{Started};
    ghost use Rattle.io_edge.specs.Kept.{started_of, IsKept};

    ghost Value = { Started };

    ghost view = { started_of };

    ghost invariant = { IsKept };
}

impl UnderWay {
    pub(crate) fn new(alloc: Global) -> Result<UnderWay, AllocError>
        ensures { IfOk result (λ line. line ≡ record { start = []; shown = [] }) }
    {
        Ok(UnderWay {
            bytes: Vec::with_capacity(alloc, MAX_LINE)?,
            beyond: 0,
            is_shown: false,
        })
    }

    pub(crate) fn len(&self) -> u64
        ensures { result ≡ length self.now.start }
    {
        if self.is_shown {
            0
        } else {
            self.bytes.len() as u64 + self.beyond
        }
    }

    pub(crate) fn shown(&self) -> &[u8]
        ensures { result.now ≡ self.now.shown }
    {
        &self.bytes
    }

    // Not inlined: most lines lie whole in a read, and do not come here.
    #[inline(never)]
    pub(crate) fn add(&mut self, piece: &[u8])
        requires { length self.old.start + length piece.now ≤ max_count }
        ensures { StandsFor (self.old.start ++ piece.now) self.new.start }
    {
        if self.is_shown {
            self.bytes.clear();
            self.is_shown = false;
        }
        if self.beyond == 0 && piece.len() <= MAX_LINE - self.bytes.len() {
            if self.bytes.extend_from_slice(piece).is_err() {
                unreachable!()
            }
        } else {
            self.beyond += piece.len() as u64;
        }
    }

    /// Ends the line at an LF, before which one CR is dropped.
    pub(crate) fn end_at_lf(&mut self) -> Answer
        ensures shows { shown_by result self.new.shown ≡ ended_by_lf self.old.start }
        ensures over { self.new.start ≡ [] }
    {
        let answer = self.end_with_input();
        if let Answer::Whole = answer {
            drop_cr(&mut self.bytes);
        }
        answer
    }

    /// Ends the line at the end of the input.
    pub(crate) fn end_with_input(&mut self) -> Answer
        ensures shows { shown_by result self.new.shown ≡ ended_by_end self.old.start }
        ensures over { self.new.start ≡ [] }
    {
        if self.is_shown {
            self.bytes.clear();
        }
        self.is_shown = true;
        if self.beyond == 0 {
            Answer::Whole
        } else {
            self.beyond = 0;
            Answer::Long
        }
    }
}

fn drop_cr(line: &mut Vec<u8>)
    ensures items { line.new.items ≡ strip_last 13 line.old.items }
    ensures room { vec_capacity line.new ≡ vec_capacity line.old }
{
    if line.last() == Some(&b'\r') {
        line.pop();
    }
}
