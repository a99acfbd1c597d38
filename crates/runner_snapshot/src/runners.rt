//! A list of runners by their starts.
ghost use Rattle.std.specs.Prelude.{◌≡◌, ◌<◌, ◌++◌, [], ◌∷◌, length, slice_get, Some, OnOk, OnErr};
ghost use Rattle.runner_snapshot.specs.Got.{Gets};

use crate::RunnerDump;
use crate::number_bytes::{put_count, put_number};
use crate::output::Output;
use std::alloc::{AllocError, Global};

/// A runner with the start that feeds it.
#[derive(Drop)]
#[cycle(dump)]
struct Instance {
    outer: u64,
    dump: RunnerDump,
}

/// Runners, each with the start that feeds it.
#[derive(Drop)]
#[cycle(dump)]
pub struct Runners {
    runners: Vec<Instance>,
}

impl Runners {
    ghost use Rattle.std.specs.List.{flat_map};
    ghost use Rattle.runner_snapshot.specs.Bytes.{runners_bytes};
    ghost use Rattle.runner_snapshot.specs.Plain.{plain_runner, plain_runners, runners_of};
    ghost use Rattle.runner_snapshot.specs.Written.{instance_bytes};

    /// None, which take no memory.
    pub fn new(alloc: Global) -> Runners
        ensures { runners_of result ≡ [] }
    {
        Runners {
            runners: Vec::new(alloc),
        }
    }

    pub fn len(&self) -> usize
        ensures { result ≡ length (runners_of self.now) }
    {
        self.runners.len()
    }

    pub fn push(&mut self, outer: u64, dump: RunnerDump) -> Result<(), AllocError>
        ensures ok { OnOk result (runners_of self.new ≡ runners_of self.old
            ++ record { outer = outer; runner = plain_runner dump } ∷ []) }
        ensures err { OnErr result (runners_of self.new ≡ runners_of self.old) }
    {
        self.runners.push(Instance { outer, dump })?;
        Ok(())
    }

    /// The start and the runner at `i`.
    pub fn get(&self, i: usize) -> (u64, &RunnerDump)
        requires { i < length (runners_of self.now) }
        ensures { slice_get (runners_of self.now) i
            ≡ Some (record { outer = result.0; runner = plain_runner result.1.now }) }
    {
        let instance = &self.runners[i];
        (instance.outer, &instance.dump)
    }

    #[cycle(write)]
    fn put_all<O: Output>(instances: &[Instance], out: &mut O) -> Result<(), AllocError>
        ensures { OnOk result (Gets O.got out.old (flat_map instance_bytes instances.now) out.new) }
    {
        'instances: for instance in instances {
            put_number(instance.outer, out)?;
            instance.dump.write(out)?;
        }
        Ok(())
    }

    /// Appends the runners after their count.
    #[cycle(write)]
    pub(crate) fn write<O: Output>(&self, out: &mut O) -> Result<(), AllocError>
        ensures { OnOk result
            (Gets O.got out.old (runners_bytes (plain_runners self.now)) out.new) }
    {
        put_count(self.runners.len(), out)?;
        Runners::put_all(&self.runners, out)
    }
}
