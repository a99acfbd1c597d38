//! What a path names: standard input, or a file.
ghost use Rattle.std.specs.Prelude.{◌≡◌, ◌<◌, Ok, false, length, IfOk};
ghost use Rattle.std.specs.Io.{ReadsAtMost};
ghost use Rattle.std.specs.Io.KnownBytes.{ReadConsumes};
ghost use Rattle.io_edge.specs.Counts.{CountsFault, EndsByEnd, FailsByFault};
ghost use Rattle.io_edge.specs.RealFile.{IsNew, ends_of, faults_of, is_open, left_in};

use crate::system::fault;
use crate::{Failed, ReaderSource, Source};
use std::fs::File;
use std::io::Read;
use std::rt::Files;

#[derive(Drop)]
pub(crate) enum Opened<I: Read + Drop, F: Read + Drop> {
    Input(ReaderSource<I>),
    File(ReaderSource<F>),
}

/// Opens a path, and counts a fault if it cannot be opened. The path `-` is standard input.
pub(crate) fn open<R: Files + Input>(
    rt: &R,
    path: &str,
    faults: &mut u64,
) -> Result<Opened<R::Reader, R::File>, Failed>
    ensures new { IfOk result (IsNew faults.old) }
    ensures cause { FailsByFault faults.old faults.new result }
    ensures faults { CountsFault faults.old faults.new result }
{
    match path {
        "-" => Ok(Opened::Input(ReaderSource::new(rt.reader(), *faults))),
        _ => match File::open(rt, path) {
            Ok(file) => Ok(Opened::File(ReaderSource::new(file, *faults))),
            Err(_) => Err(fault(faults)),
        },
    }
}

impl<I: Read + Drop, F: Read + Drop> Source for Opened<I, F> {
    ghost left = { left_in I.remaining F.remaining };

    ghost faults = { faults_of };

    ghost ends = { ends_of };

    fn read(&mut self, buf: &mut [u8]) -> Result<usize, Failed>
        ensures bound { ReadsAtMost result buf.new }
        ensures bytes { ReadConsumes (left_in I.remaining F.remaining self.old)
            (left_in I.remaining F.remaining self.new) result buf.new }
        ensures cause { FailsByFault (faults_of self.old) (faults_of self.new) result }
        ensures end { EndsByEnd (ends_of self.old) (ends_of self.new) result (length buf.new) }
        ensures no_room { length buf.new ≡ 0 → (result ≡ Ok 0) × (self.new ≡ self.old) }
        ensures closed { 0 < length buf.new → 0 < ends_of self.new → is_open self.new ≡ false }
        ensures again { 0 < ends_of self.old → result ≡ Ok 0 }
    {
        match self {
            Opened::Input(source) => source.read(buf),
            Opened::File(source) => source.read(buf),
        }
    }
}
