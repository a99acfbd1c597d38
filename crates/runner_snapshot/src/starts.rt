//! A list of starts.
ghost use Rattle.std.specs.Prelude.{◌≡◌, ◌<◌, ◌++◌, [], ◌∷◌, length, slice_get, Some, OnOk, OnErr};
ghost use Rattle.std.specs.List.{flat_map};
ghost use Rattle.runner_snapshot.specs.Bytes.{in_eight, starts_bytes};
ghost use Rattle.runner_snapshot.specs.Got.{Gets};

use crate::number_bytes::put_number;
use crate::output::Output;
use std::alloc::{AllocError, Global};
use std::marker::Model;

/// Starts, seen as their list.
#[derive(Drop)]
pub struct Starts {
    starts: Vec<u64>,
}

impl Model for Starts {
    ghost use Rattle.std.specs.Prelude.{List, ℕ};

    ghost Value = { List ℕ };

    ghost view = { λ s. s.starts.items };
}

fn put_starts<O: Output>(starts: &[u64], out: &mut O) -> Result<(), AllocError>
    ensures { OnOk result (Gets O.got out.old (flat_map in_eight starts.now) out.new) }
{
    'starts: for &start in starts {
        put_number(start, out)?;
    }
    Ok(())
}

impl Starts {
    /// None, which take no memory.
    pub fn new(alloc: Global) -> Starts
        ensures { result ≡ [] }
    {
        Starts {
            starts: Vec::new(alloc),
        }
    }

    pub fn len(&self) -> usize
        ensures { result ≡ length self.now }
    {
        self.starts.len()
    }

    pub fn push(&mut self, at: u64) -> Result<(), AllocError>
        ensures ok { OnOk result (self.new ≡ self.old ++ at ∷ []) }
        ensures err { OnErr result (self.new ≡ self.old) }
    {
        self.starts.push(at)?;
        Ok(())
    }

    /// The start at `i`.
    pub fn get(&self, i: usize) -> u64
        requires { i < length self.now }
        ensures { slice_get self.now i ≡ Some result }
    {
        self.starts[i]
    }

    /// Appends the starts after their count in one byte; an atom has at most one.
    pub(crate) fn write<O: Output>(&self, out: &mut O) -> Result<(), AllocError>
        ensures { OnOk result (Gets O.got out.old (starts_bytes self.now) out.new) }
    {
        out.put(&self.starts.len().to_be_bytes()[7..])?;
        put_starts(&self.starts, out)
    }
}
