//! A source over a real file, or over standard input.
ghost use Rattle.std.specs.Prelude.{◌≡◌, ◌<◌, None, Ok, false, length, IfOk};
ghost use Rattle.std.specs.Io.{ReadsAtMost};
ghost use Rattle.std.specs.Io.KnownBytes.{ReadConsumes};
ghost use Rattle.io_edge.specs.Counts.{EndsByEnd, FailsByFault};
ghost use Rattle.io_edge.specs.RealFile.{ReadsFile, source_of};

use crate::input::{Opened, open};
use crate::{Failed, Source};
use std::alloc::{AllocError, Global};
use std::marker::Model;
use std::rt::Files;

/// It is opened at its first read into a buffer that has room, and closed at its end. If it cannot
/// be opened, the next read tries again.
#[derive(Drop)]
pub struct LazyFile<R: Files + Input + Drop> {
    rt: R,
    path: String,
    opened: Option<Opened<R::Reader, R::File>>,
    faults: u64,
}

impl<R: Files + Input + Drop> Model for LazyFile<R> {
    ghost use Rattle.std.specs.String.{string_bytes};
    ghost use Rattle.io_edge.specs.RealFile.{FileSource, source_of};

    ghost Value = { FileSource };

    ghost view = { λ f. source_of R.Reader.remaining R.File.remaining (string_bytes f.path)
        f.faults f.opened };
}

impl<R: Files + Input + Drop> LazyFile<R> {
    /// The path `-` is standard input.
    pub fn new(rt: R, alloc: Global, path: &str) -> Result<Self, AllocError>
        ensures { IfOk result (λ f. f ≡ record {
          path = path.now;
          left = None;
          faults = 0;
          ends = 0;
          is_open = false;
        }) }
    {
        Ok(LazyFile {
            rt,
            path: String::from_str(alloc, path)?,
            opened: None,
            faults: 0,
        })
    }
}

impl<R: Files + Input + Drop> Source for LazyFile<R> {
    ghost left = { λ f. f.left };

    ghost faults = { λ f. f.faults };

    ghost ends = { λ f. f.ends };

    fn read(&mut self, buf: &mut [u8]) -> Result<usize, Failed>
        ensures bound { ReadsAtMost result buf.new }
        ensures bytes { ReadConsumes self.old.left self.new.left result buf.new }
        ensures cause { FailsByFault self.old.faults self.new.faults result }
        ensures end { EndsByEnd self.old.ends self.new.ends result (length buf.new) }
        ensures no_room { length buf.new ≡ 0 → (result ≡ Ok 0) × (self.new ≡ self.old) }
        ensures counts { 0 < length buf.new → ReadsFile self.old self.new result }
    {
        if buf.is_empty() {
            return Ok(0);
        }
        if let Some(source) = &mut self.opened {
            return source.read(buf);
        }
        let path = self.path.as_str();
        read_first(&self.rt, path, &mut self.faults, &mut self.opened, buf)
    }
}

// Opens a path, and reads for the first time.
fn read_first<R: Files + Input + Drop>(
    rt: &R,
    path: &str,
    faults: &mut u64,
    opened: &mut Option<Opened<R::Reader, R::File>>,
    buf: &mut [u8],
) -> Result<usize, Failed>
    requires closed { opened.old ≡ None }
    requires room { 0 < length buf.old }
    ensures bound { ReadsAtMost result buf.new }
    ensures bytes { ReadConsumes None (source_of R.Reader.remaining R.File.remaining path.now
        faults.new opened.new).left result buf.new }
    ensures cause { FailsByFault faults.old (source_of R.Reader.remaining R.File.remaining path.now
        faults.new opened.new).faults result }
    ensures end { EndsByEnd 0 (source_of R.Reader.remaining R.File.remaining path.now
        faults.new opened.new).ends result (length buf.new) }
    ensures counts { ReadsFile
        (source_of R.Reader.remaining R.File.remaining path.now faults.old opened.old)
        (source_of R.Reader.remaining R.File.remaining path.now faults.new opened.new) result }
{
    let source = open(rt, path, faults)?;
    opened.insert(source).read(buf)
}
