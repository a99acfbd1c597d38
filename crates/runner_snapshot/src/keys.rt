//! A list of runners by their keys.
ghost use Rattle.std.specs.Prelude.{◌≡◌, ◌<◌, ◌++◌, [], ◌∷◌, length, slice_get, Some, OnOk, OnErr};
ghost use Rattle.runner_snapshot.specs.Got.{Gets};

use crate::RunnerDump;
use crate::number_bytes::{put_count, put_text};
use crate::output::Output;
use std::alloc::{AllocError, Global};
use value_ops::Bytes;

/// A runner with its key.
#[derive(Drop)]
#[cycle(dump)]
struct KeyDump {
    key: Bytes,
    dump: RunnerDump,
}

/// Runners, each with its key.
#[derive(Drop)]
#[cycle(dump)]
pub struct KeyDumps {
    alloc: Global,
    keys: Vec<KeyDump>,
}

impl KeyDumps {
    ghost use Rattle.std.specs.List.{flat_map};
    ghost use Rattle.runner_snapshot.specs.Bytes.{keys_bytes};
    ghost use Rattle.runner_snapshot.specs.Plain.{keys_of, plain_keys, plain_runner};
    ghost use Rattle.runner_snapshot.specs.Written.{key_bytes};

    /// None, which take no memory.
    pub fn new(alloc: Global) -> KeyDumps
        ensures { keys_of result ≡ [] }
    {
        KeyDumps {
            alloc,
            keys: Vec::new(alloc),
        }
    }

    pub fn len(&self) -> usize
        ensures { result ≡ length (keys_of self.now) }
    {
        self.keys.len()
    }

    pub fn push(&mut self, key: &[u8], dump: RunnerDump) -> Result<(), AllocError>
        ensures ok { OnOk result (keys_of self.new ≡ keys_of self.old
            ++ record { key = key.now; runner = plain_runner dump } ∷ []) }
        ensures err { OnErr result (keys_of self.new ≡ keys_of self.old) }
    {
        let key = Bytes::from_slice(self.alloc, key)?;
        self.keys.push(KeyDump { key, dump })?;
        Ok(())
    }

    /// The key and the runner at `i`.
    pub fn get(&self, i: usize) -> (&[u8], &RunnerDump)
        requires { i < length (keys_of self.now) }
        ensures { slice_get (keys_of self.now) i
            ≡ Some (record { key = result.0.now; runner = plain_runner result.1.now }) }
    {
        let keyed = &self.keys[i];
        (keyed.key.as_slice(), &keyed.dump)
    }

    #[cycle(write)]
    fn put_all<O: Output>(keys: &[KeyDump], out: &mut O) -> Result<(), AllocError>
        ensures { OnOk result (Gets O.got out.old (flat_map key_bytes keys.now) out.new) }
    {
        'keys: for keyed in keys {
            put_text(keyed.key.as_slice(), out)?;
            keyed.dump.write(out)?;
        }
        Ok(())
    }

    /// Appends the runners after their count.
    #[cycle(write)]
    pub(crate) fn write<O: Output>(&self, out: &mut O) -> Result<(), AllocError>
        ensures { OnOk result (Gets O.got out.old (keys_bytes (plain_keys self.now)) out.new) }
    {
        put_count(self.keys.len(), out)?;
        KeyDumps::put_all(&self.keys, out)
    }
}
