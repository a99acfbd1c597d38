//! The bytes of one read, in a buffer of a fixed size. Lines are cut off from left to right:
//!
//!     earlier lines | last line | its end | unread bytes | free
//!                   ^           ^         ^              ^
//!               line_from    line_to     from            to
//!
//! The line that was cut off last stays in place until the next read, so that a line which lies
//! whole in one read is not copied. `lines_end` is the place after the last LF: more whole lines
//! are unread exactly if `from` is below it.
ghost use Rattle.std.specs.Prelude.{◌≡◌, ◌<◌, ◌≤◌, ℕ, ◌+◌, [], length, drop, take, Ok, IfOk};
ghost use Rattle.std.specs.Prelude.{IsFalse, IsTrue, OnErr, vec_len};
ghost use Rattle.std.specs.Io.BufRead.{strip_last};
ghost use Rattle.std.specs.Io.KnownBytes.{Consumes, Keeps};
ghost use Rattle.io_edge.specs.Counts.{FailsByFault};
ghost use Rattle.io_edge.specs.Ended.{MeetsEnd};
ghost use Rattle.io_edge.specs.Lines.{NoLf};
ghost use Rattle.io_edge.specs.LinesEnd.{EndsLines};

use crate::{Failed, Source};
use memchr::memrchr;
use std::alloc::{AllocError, Global};
use std::marker::Model;

/// The most bytes of one read.
const MAX_READ: usize = 4096;

#[derive(Drop)]
pub(crate) struct Chunk {
    bytes: Vec<u8>,
    line_from: usize,
    line_to: usize,
    from: usize,
    to: usize,
    lines_end: usize,
}

impl Model for Chunk {
    ghost use Rattle.std.specs.Prelude.{◌≤◌, ◌<◌, slice_range, take, vec_len};
    ghost use Rattle.io_edge.specs.Chunked.{Chunked};
    ghost use Rattle.io_edge.specs.LinesEnd.{EndsLines};

    ghost Value = { Chunked };

    ghost view = { λ c. record {
      line = slice_range c.bytes.items c.line_from c.line_to;
      unread = slice_range c.bytes.items c.from c.to;
    } };

    ghost invariant = { λ c. (c.line_from ≤ c.line_to) × (c.line_to ≤ c.to) × (c.from ≤ c.to)
        × (c.to ≤ vec_len c.bytes) × (0 < vec_len c.bytes)
        × EndsLines (take c.to c.bytes.items) c.lines_end };
}

impl Chunk {
    pub(crate) fn new(alloc: Global) -> Result<Chunk, AllocError>
        ensures { IfOk result (λ chunk. chunk ≡ record { line = []; unread = [] }) }
    {
        Ok(Chunk {
            bytes: vec![in alloc; 0; MAX_READ]?,
            line_from: 0,
            line_to: 0,
            from: 0,
            to: 0,
            lines_end: 0,
        })
    }

    pub(crate) fn unread(&self) -> &[u8]
        ensures { result.now ≡ self.now.unread }
    {
        &self.bytes[self.from..self.to]
    }

    pub(crate) fn line(&self) -> &[u8]
        ensures { result.now ≡ self.now.line }
    {
        &self.bytes[self.line_from..self.line_to]
    }

    /// Whether the unread bytes hold a whole line.
    #[inline]
    pub(crate) fn has_lf(&self) -> bool
        ensures some { IsTrue result → NoLf self.now.unread → ⊥ }
        ensures none { IsFalse result → NoLf self.now.unread }
    {
        self.from < self.lines_end
    }

    pub(crate) fn skip(&mut self, count: usize)
        requires { count ≤ length self.old.unread }
        ensures { self.new ≡ record self.old { unread = drop count self.old.unread } }
    {
        self.from += count;
    }

    /// Cuts off a line at the LF which is `at` bytes from the front. One CR before it is dropped.
    #[inline]
    pub(crate) fn cut(&mut self, at: usize)
        requires { at < length self.old.unread }
        ensures { self.new ≡ record {
          line = strip_last 13 (take at self.old.unread);
          unread = drop (at + 1) self.old.unread;
        } }
    {
        let count = count_without_cr(&self.bytes[self.from..self.from + at]);
        self.line_from = self.from;
        self.line_to = self.from + count;
        self.from += at + 1;
    }

    /// Reads at most `most` bytes. They replace all bytes held before.
    pub(crate) fn fill<S: Source>(&mut self, source: &mut S, most: usize) -> Result<usize, Failed>
        requires { 0 < most }
        ensures no_line { self.new.line ≡ [] }
        ensures bytes { IfOk result (λ count. (count ≡ length self.new.unread) × (count ≤ most)
            × Consumes (S.left source.old) (S.left source.new) self.new.unread) }
        ensures err { OnErr result ((self.new.unread ≡ [])
            × Keeps (S.left source.old) (S.left source.new)) }
        ensures end { MeetsEnd (S.ends source.old) (S.ends source.new) (S.left source.new)
            (result ≡ Ok 0) }
        ensures cause { FailsByFault (S.faults source.old) (S.faults source.new) result }
    {
        self.line_from = 0;
        self.line_to = 0;
        self.from = 0;
        self.to = 0;
        self.lines_end = 0;
        let count = read_some(source, &mut self.bytes, most)?;
        self.to = count;
        self.lines_end = lines_end(&self.bytes[..count]);
        Ok(count)
    }
}

/// Reads at most `most` bytes into the front of the buffer.
fn read_some<S: Source>(source: &mut S, buf: &mut [u8], most: usize) -> Result<usize, Failed>
    requires room { 0 < length buf.old }
    requires some { 0 < most }
    ensures bytes { IfOk result (λ count. (count ≤ most) × (count ≤ length buf.new)
        × Consumes (S.left source.old) (S.left source.new) (take count buf.new)) }
    ensures err { OnErr result (Keeps (S.left source.old) (S.left source.new)) }
    ensures end { MeetsEnd (S.ends source.old) (S.ends source.new) (S.left source.new)
        (result ≡ Ok 0) }
    ensures cause { FailsByFault (S.faults source.old) (S.faults source.new) result }
{
    let room = buf.len().min(most);
    source.read(&mut buf[..room])
}

/// How many bytes the line has without one CR at its end.
#[inline]
fn count_without_cr(line: &[u8]) -> usize
    ensures within { result ≤ length line.now }
    ensures shown { take result line.now ≡ strip_last 13 line.now }
{
    match line.last() {
        Some(b'\r') => line.len() - 1,
        _ => line.len(),
    }
}

/// The place after the last LF, or 0 if there is none.
fn lines_end(bytes: &[u8]) -> usize
    ensures { EndsLines bytes.now result }
{
    match memrchr(b'\n', bytes) {
        Some(at) => at + 1,
        None => 0,
    }
}
