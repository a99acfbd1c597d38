// What no clause says of an output whose contents are not known: that all bytes come to it, once
// and in their order.
use crate::assertions::{same, same_at};
use io_edge::{Sink, WriterSink};
use std::alloc::{AllocError, Global};
use std::cell::{Cell, RefCell};
use std::fmt::Display;
use std::io::{self, ErrorKind};
use std::process::Abort;
use std::test::Fail;

// The most bytes that wait to be flushed.
const MAX_HELD: usize = 65_536;

/// Takes a few bytes at a time, and is interrupted at its second write.
#[derive(Drop)]
struct ShortOutput {
    bytes: RefCell<Vec<u8>>,
    most: usize,
    writes: Cell<u64>,
}

fn short_output(alloc: Global, most: usize) -> ShortOutput {
    ShortOutput {
        bytes: RefCell::new(Vec::new(alloc)),
        most,
        writes: Cell::new(0),
    }
}

impl Print for ShortOutput {
    fn print<D: Display + Drop>(&self, _value: D) -> io::Result<()> {
        Err(io::Error::from(ErrorKind::Unsupported))
    }

    fn println<D: Display + Drop>(&self, _value: D) -> io::Result<()> {
        Err(io::Error::from(ErrorKind::Unsupported))
    }

    fn write_all(&self, _bytes: &[u8]) -> io::Result<()> {
        Err(io::Error::from(ErrorKind::Unsupported))
    }

    fn write_some(&self, bytes: &[u8]) -> io::Result<usize> {
        self.writes.set(self.writes.get().saturating_add(1));
        if self.writes.get() == 2 {
            return Err(io::Error::from(ErrorKind::Interrupted));
        }
        let count = bytes.len().min(self.most);
        match self.bytes.try_borrow_mut() {
            Ok(mut taken) => taken.extend_from_slice(&bytes[..count])?,
            Err(_) => return Err(io::Error::from(ErrorKind::Other)),
        }
        Ok(count)
    }
}

// The bytes that wait come to the output at a flush, or at the next one if it is interrupted.
fn is_flushed<S: Sink>(rt: &impl Abort, sink: &mut S, most: usize) {
    let is_whole = sink.flush().is_ok();
    same_at(rt, most, is_whole, most >= 5);
    same(rt, sink.write(b"\n5"), Ok(2));
    same_at(rt, most, sink.flush().is_ok(), !is_whole);
    same_at(rt, most, sink.flush(), Ok(()));
}

fn has_taken(rt: &impl Abort, output: &ShortOutput, wanted: &[u8]) -> Result<(), Fail> {
    let taken = output.bytes.try_borrow()?;
    same_at(rt, output.most, taken.as_slice(), wanted);
    Ok(())
}

// Five bytes wait for a flush, and two more come after it.
fn are_flushed(rt: &impl Abort, alloc: Global, output: &ShortOutput) -> Result<(), AllocError> {
    let mut sink = WriterSink::new(io::writer(output), alloc)?;
    same(rt, sink.write(b"12\n34"), Ok(5));
    same(rt, output.writes.get(), 0);
    is_flushed(rt, &mut sink, output.most);
    Ok(())
}

#[test]
fn bytes_are_flushed_once_and_in_order(rt: HostRuntime) -> Result<(), Fail> {
    for most in 1..9 {
        let output = Box::new(rt.alloc(), short_output(rt.alloc(), most))?;
        are_flushed(&rt, rt.alloc(), &output)?;
        has_taken(&rt, &output, b"12\n34\n5")?;
    }
    Ok(())
}

// A text that fills the buffer except for the one byte before it waits together with that byte.
fn is_filled<S: Sink>(rt: &impl Abort, alloc: Global, sink: &mut S) -> Result<(), AllocError> {
    let text = vec![in alloc; b'x'; MAX_HELD - 1]?;
    same(rt, sink.write(b"a"), Ok(1));
    same(rt, sink.write(&text), Ok(MAX_HELD - 1));
    Ok(())
}

fn waits_for_room(rt: &impl Abort, alloc: Global, output: &ShortOutput) -> Result<(), AllocError> {
    let mut sink = WriterSink::new(io::writer(output), alloc)?;
    is_filled(rt, alloc, &mut sink)?;
    same(rt, output.writes.get(), 0);
    same(rt, sink.write(b"b"), Ok(1));
    Ok(())
}

// How much the output took, and the first byte of it.
fn has_taken_from(
    rt: &impl Abort,
    output: &ShortOutput,
    count: usize,
    first: u8,
) -> Result<(), Fail> {
    let taken = output.bytes.try_borrow()?;
    same(rt, taken.len(), count);
    same(rt, taken.first(), Some(&first));
    Ok(())
}

#[test]
fn what_does_not_fit_waits_for_what_was_held_before(rt: HostRuntime) -> Result<(), Fail> {
    let output = Box::new(rt.alloc(), short_output(rt.alloc(), usize::MAX))?;
    waits_for_room(&rt, rt.alloc(), &output)?;
    same(&rt, output.writes.get(), 1);
    has_taken_from(&rt, &output, MAX_HELD, b'a')
}

// A text that is larger than the buffer by three bytes, and then three bytes of which the last one
// does not fit.
fn is_taken_in_parts<S: Sink>(
    rt: &impl Abort,
    alloc: Global,
    sink: &mut S,
) -> Result<(), AllocError> {
    let text = vec![in alloc; b'x'; MAX_HELD + 3]?;
    same(rt, sink.write(&text), Ok(MAX_HELD));
    same(rt, sink.write(b"yyz"), Ok(3));
    Ok(())
}

fn writes_in_parts(rt: &impl Abort, alloc: Global, output: &ShortOutput) -> Result<(), AllocError> {
    let mut sink = WriterSink::new(io::writer(output), alloc)?;
    is_taken_in_parts(rt, alloc, &mut sink)
}

#[test]
fn a_text_larger_than_the_buffer_is_taken_in_parts(rt: HostRuntime) -> Result<(), Fail> {
    let output = Box::new(rt.alloc(), short_output(rt.alloc(), usize::MAX))?;
    writes_in_parts(&rt, rt.alloc(), &output)?;
    has_taken_from(&rt, &output, MAX_HELD, b'x')
}
