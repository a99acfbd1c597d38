//! The lines of a source. Bytes pass through two buffers:
//!
//!     source --> chunk: one read, up to 4,096 bytes --> line under way: up to 65,536 bytes
//!
//! A line that lies whole in the chunk is answered from there. A line that lies in several reads is
//! gathered in the second buffer, and answered from there.
ghost use Rattle.std.specs.Prelude.{◌≡◌, ℕ, ◌+◌, ◌^◌, ◌<◌, ◌≤◌, ◌↔◌, List, [], ◌∷◌, ◌++◌, length};
ghost use Rattle.std.specs.Prelude.{take, drop, true, false, Ok, Err, None, IfOk, OnErr, IsErrOf};
ghost use Rattle.std.specs.Prelude.{IsTrue, MatchOption, MatchResult};
ghost use Rattle.std.specs.Io.KnownBytes.{Consumes};
ghost use Rattle.io_edge.specs.Counts.{FailsBy};
ghost use Rattle.io_edge.specs.Ended.{MeetsEnd};
ghost use Rattle.io_edge.specs.Lines.{NoLf};
ghost use Rattle.io_edge.specs.Reading.{count_of, Ends};
ghost use Rattle.io_edge.specs.Answered.{shown_by};

use crate::chunk::Chunk;
use crate::partial_line::{Answer, MAX_LINE, UnderWay};
use crate::{Failed, Source};
use std::alloc::{AllocError, Global};
use std::marker::Model;

/// The most bytes that are taken in all.
const MAX_COUNT: u64 = (1 << 63) - 1;

/// A line, or the end of the input.
#[derive(Clone, Copy, Debug)]
pub enum Line<'a> {
    /// The line without its line end. It may be empty.
    Whole(&'a [u8]),
    /// A line of more than 65,536 bytes before its line end.
    Long,
    /// The input has ended, and all of its lines were answered.
    End,
}

/// Why there is no line for now.
#[derive(Clone, Copy, Debug, PartialEq, Eq)]
pub enum LineStop {
    /// The source failed. The bytes taken so far are kept, and a later call continues from there.
    Failed,
    /// 2^63-1 bytes were taken without an end, and no whole line is left among them.
    Limit,
}

/// The lines of a source that is passed to each call.
#[derive(Drop)]
pub struct Lines {
    chunk: Chunk,
    line: UnderWay,
    place: LinePlace,
    answered: u64,
    met: bool,
}

/// Which buffer holds the line answered last, if any does. A line that lies whole in a read is not
/// copied.
#[derive(Clone, Copy)]
enum LinePlace {
    Nowhere,
    InChunk,
    InBuffer,
}

impl Model for Lines {
    ghost use Rattle.std.specs.Prelude.{◌≡◌, ◌≤◌, ℕ, ◌+◌, [], length, true};
    ghost use Rattle.io_edge.specs.Limits.{max_count};
    ghost use Rattle.io_edge.specs.Answered.{shown_at};
    ghost use Rattle.io_edge.specs.Reading.{Reading};

    ghost Value = { Reading };

    ghost view = { λ l. record {
      start = l.line.start;
      unread = l.chunk.unread;
      answered = l.answered;
      met = l.met;
      shown = shown_at l.place l.chunk.line l.line.shown;
    } };

    ghost invariant = { λ l.
        (l.answered + (length l.line.start + length l.chunk.unread) ≤ max_count)
        × (l.met ≡ true → (l.line.start ≡ []) × (l.chunk.unread ≡ [])) };
}

impl Lines {
    ghost use Rattle.std.specs.Borrow.{sem};
    ghost use Rattle.std.specs.Io.BufRead.{Rests};
    ghost use Rattle.io_edge.specs.contracts.lines.Lines.{the_row};
    ghost use Rattle.io_edge.specs.Reported.{Reported, IsQuiet};
    ghost use Rattle.io_edge.specs.Limits.{max_count};
    ghost use Rattle.io_edge.specs.Steps.{ComesAgain, Cuts, Joins, Reaches, Refills};

    /// Reserves memory for the longest line and for one read, so that no later call can be out of
    /// memory.
    pub fn new(alloc: Global) -> Result<Lines, AllocError>
        ensures { IfOk result (λ lines.
            lines ≡ record { start = []; unread = []; answered = 0; met = false; shown = [] }) }
    {
        Ok(Lines {
            chunk: Chunk::new(alloc)?,
            line: UnderWay::new(alloc)?,
            place: LinePlace::Nowhere,
            answered: 0,
            met: false,
        })
    }

    /// The next line. The source is read only while the bytes taken hold no whole line.
    pub fn next<S: Source>(&mut self, source: &mut S) -> Result<Line<'_>, LineStop>
        ensures* reported { sem 𝓛 (Rests the_row self.entry (λ new.
            Reported (S.left source.old) (S.left source.new) (S.ends source.old) (S.ends source.new)
            self.old new result)) }
        ensures quiet { IsQuiet self.old → (source.new ≡ source.old)
            × (IsErrOf result LineStop.Failed → ⊥) }
        ensures cause { FailsBy (S.faults source.old) (S.faults source.new)
            (IsErrOf result LineStop.Failed) }
    {
        match self.advance(source)? {
            Some(Answer::Whole) => Ok(Line::Whole(self.shown())),
            Some(Answer::Long) => Ok(Line::Long),
            None => Ok(Line::End),
        }
    }

    /// Whether the next call of `next` answers without a read.
    pub fn is_ready(&self) -> bool
        ensures { IsTrue result ↔ IsQuiet self.now }
    {
        self.met || self.chunk.has_lf() || self.is_full()
    }

    /// Whether no more bytes are taken, since the limit is reached.
    fn is_full(&self) -> bool
        ensures { IsTrue result ↔ (count_of self.now ≡ max_count) }
    {
        self.answered + self.line.len() + self.chunk.unread().len() as u64 == MAX_COUNT
    }

    fn shown(&self) -> &[u8]
        ensures { result.now ≡ self.now.shown }
    {
        match self.place {
            LinePlace::Nowhere => &[],
            LinePlace::InChunk => self.chunk.line(),
            LinePlace::InBuffer => self.line.shown(),
        }
    }

    /// Reads up to the end of the next line, or of the input.
    fn advance<S: Source>(&mut self, source: &mut S) -> Result<Option<Answer>, LineStop>
        ensures line { (got : List ℕ) × Consumes (S.left source.old) (S.left source.new) got
            × Reaches self.old got result self.new }
        ensures end { MeetsEnd (S.ends source.old) (S.ends source.new) (S.left source.new)
            ((self.old.met ≡ false) × (self.new.met ≡ true)) }
        ensures again { ComesAgain self.old result self.new }
        ensures few { count_of self.new ≤ max_count }
        ensures quiet { IsQuiet self.old → (source.new ≡ source.old)
            × (IsErrOf result LineStop.Failed → ⊥) }
        ensures cause { FailsBy (S.faults source.old) (S.faults source.new)
            (IsErrOf result LineStop.Failed) }
    {
        if self.met {
            return Ok(None);
        }
        'more: loop {
            if let Some(answer) = self.take_line() {
                return Ok(Some(answer));
            }
            if self.refill(source)? == 0 {
                return Ok(self.end());
            }
        }
    }

    /// Answers the first line that ends in the chunk. If none does, its bytes are added to the line
    /// under way.
    fn take_line(&mut self) -> Option<Answer>
        requires { self.old.met ≡ false }
        ensures { MatchOption result (Joins self.old self.new)
            (λ answer. Cuts self.old (shown_by answer self.new.shown) self.new) }
    {
        let bytes = self.chunk.unread();
        match first_lf(bytes) {
            Some(at) if at <= MAX_LINE && self.line.len() == 0 => {
                self.chunk.cut(at);
                self.place = LinePlace::InChunk;
                self.answered += at as u64 + 1;
                Some(Answer::Whole)
            }
            Some(at) => {
                self.line.add(&bytes[..at]);
                self.chunk.skip(at + 1);
                self.place = LinePlace::InBuffer;
                self.answered += self.line.len() + 1;
                Some(self.line.end_at_lf())
            }
            None => {
                let count = bytes.len();
                self.line.add(bytes);
                self.chunk.skip(count);
                None
            }
        }
    }

    /// Reads the next bytes into the chunk, whose bytes are all answered or in the line under way.
    /// The line answered last is lost.
    fn refill<S: Source>(&mut self, source: &mut S) -> Result<usize, LineStop>
        requires none_waits { self.old.unread ≡ [] }
        requires not_met { self.old.met ≡ false }
        ensures bytes { Refills (S.left source.old) (S.left source.new) self.old self.new }
        ensures count { MatchResult result (λ count. count ≡ length self.new.unread)
            (λ _. self.new ≡ record self.old { shown = [] }) }
        ensures limit { IsErrOf result LineStop.Limit ↔ (count_of self.old ≡ max_count) }
        ensures quiet { count_of self.old ≡ max_count → source.new ≡ source.old }
        ensures end { MeetsEnd (S.ends source.old) (S.ends source.new) (S.left source.new)
            (result ≡ Ok 0) }
        ensures cause { FailsBy (S.faults source.old) (S.faults source.new)
            (IsErrOf result LineStop.Failed) }
    {
        self.place = LinePlace::Nowhere;
        let room = MAX_COUNT - self.answered - self.line.len();
        if room == 0 {
            return Err(LineStop::Limit);
        }
        match self.chunk.fill(source, room as usize) {
            Ok(count) => Ok(count),
            Err(Failed) => Err(LineStop::Failed),
        }
    }

    /// Answers the bytes after the last LF, if there are any.
    fn end(&mut self) -> Option<Answer>
        requires none_waits { self.old.unread ≡ [] }
        requires not_met { self.old.met ≡ false }
        ensures { MatchOption result (Ends self.old [] [] self.new)
            (λ answer. Ends self.old [] (shown_by answer self.new.shown ∷ []) self.new
            × (self.old.answered < self.new.answered)) }
    {
        self.met = true;
        let count = self.line.len();
        if count == 0 {
            return None;
        }
        self.answered += count;
        self.place = LinePlace::InBuffer;
        Some(self.line.end_with_input())
    }
}

fn first_lf(bytes: &[u8]) -> Option<usize>
    ensures { MatchOption result (NoLf bytes.now)
        (λ at. NoLf (take at bytes.now)
        × (bytes.now ≡ take at bytes.now ++ 10 ∷ drop (at + 1) bytes.now)) }
{
    bytes.iter().position(|&byte| byte == b'\n')
}
