//! A sink over a writer.
ghost use Rattle.std.specs.Prelude.{◌≡◌, length, IfOk};
ghost use Rattle.std.specs.Io.KnownBytes.{Keeps, append_known};

use crate::held_bytes::HeldBytes;
use crate::{Failed, Output, Sink};
use std::alloc::{AllocError, Global};

/// Buffers up to 65,536 bytes. They are flushed when the next bytes do not fit, or by `flush`.
#[derive(Drop)]
pub struct WriterSink<O: Output + Drop> {
    output: O,
    held: HeldBytes,
    faults: u64,
}

impl<O: Output + Drop> WriterSink<O> {
    /// Reserves memory for the whole buffer, so that no later call can be out of memory.
    pub fn new(output: O, alloc: Global) -> Result<Self, AllocError>
        ensures taken { IfOk result (λ s.
            Keeps (O.contents output) (⟦<WriterSink<O> as Sink>⟧.taken s)) }
        ensures none_held { IfOk result (λ s. ⟦<WriterSink<O> as Sink>⟧.held s ≡ 0) }
        ensures no_fault { IfOk result (λ s. ⟦<WriterSink<O> as Sink>⟧.faults s ≡ 0) }
    {
        Ok(WriterSink {
            output,
            held: HeldBytes::new(alloc)?,
            faults: 0,
        })
    }
}

impl<O: Output + Drop> Sink for WriterSink<O> {
    ghost taken = { λ s. append_known (O.contents s.output) s.held };

    ghost held = { λ s. length s.held };

    ghost faults = { λ s. s.faults };

    fn write(&mut self, bytes: &[u8]) -> Result<usize, Failed> {
        if bytes.is_empty() {
            return Ok(0);
        }
        self.held.take(bytes, &mut self.output, &mut self.faults)
    }

    fn flush(&mut self) -> Result<(), Failed> {
        self.held.flush_all(&mut self.output, &mut self.faults)
    }
}
