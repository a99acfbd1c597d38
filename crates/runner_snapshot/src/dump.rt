//! Where what follows a word of a query stands.

ghost use Rattle.std.specs.Prelude.{◌≡◌, ◌++◌, OnOk};
ghost use Rattle.runner_snapshot.specs.Got.{Gets};

use crate::entries::Entries;
use crate::number_bytes::put_number;
use crate::output::Output;
use crate::runners::Runners;
use crate::starts::Starts;
use crate::tags::NodeTag;
use crate::tracks::TrackDumps;
use crate::value_bytes::put_answer;
use std::alloc::AllocError;
use value_ops::Value;

/// How many items went by, the value on them, and what is kept.
#[derive(Drop)]
#[cycle(dump)]
pub struct RunnerDump {
    pub position: u64,
    pub answer: Option<Value>,
    pub node: NodeDump,
}

/// What is kept, by the shape of the query.
#[derive(Drop)]
#[cycle(dump)]
pub enum NodeDump {
    /// For an atom: the start at the end of the word, if it is one.
    Atom(Starts),
    /// For the empty word: nothing.
    Eps,
    /// For an or: both operands.
    Or(Box<NodeDump>, Box<NodeDump>),
    /// For a split: the operands, and the left values after which a right piece may still come.
    Split(Box<NodeDump>, Box<NodeDump>, Entries),
    /// For an iter: the operand, and the values so far after which a further piece may come.
    Iter(Box<NodeDump>, Entries),
    /// For a combine: the operands.
    Combine(Box<NodeDump>, Box<NodeDump>),
    /// For an apply: the operand.
    Apply(Box<NodeDump>),
    /// For a compose: the left operand, and the runners of the right one that are fed.
    Compose(Box<NodeDump>, Runners),
    /// For a collect: the live starts.
    Collect(TrackDumps),
}

impl RunnerDump {
    ghost use Rattle.runner_snapshot.specs.Bytes.{runner_bytes};
    ghost use Rattle.runner_snapshot.specs.Plain.{plain_runner};

    /// Appends the bytes of the dump.
    #[cycle(write)]
    pub(crate) fn write<O: Output>(&self, out: &mut O) -> Result<(), AllocError>
        ensures { OnOk result (Gets O.got out.old (runner_bytes (plain_runner self.now)) out.new) }
    {
        put_number(self.position, out)?;
        put_answer(&self.answer, out)?;
        self.node.write(out)
    }
}

impl NodeDump {
    ghost use Rattle.runner_snapshot.specs.Bytes.{node_bytes};
    ghost use Rattle.runner_snapshot.specs.Plain.{plain_node};
    ghost use Rattle.runner_snapshot.specs.Tags.{tag_of};

    fn tag(&self) -> NodeTag
        ensures { result ≡ tag_of (plain_node self.now) }
    {
        match self {
            NodeDump::Atom(_) => NodeTag::Atom,
            NodeDump::Eps => NodeTag::Eps,
            NodeDump::Or(..) => NodeTag::Or,
            NodeDump::Split(..) => NodeTag::Split,
            NodeDump::Iter(..) => NodeTag::Iter,
            NodeDump::Combine(..) => NodeTag::Combine,
            NodeDump::Apply(_) => NodeTag::Apply,
            NodeDump::Compose(..) => NodeTag::Compose,
            NodeDump::Collect(_) => NodeTag::Collect,
        }
    }

    // Appends the tag, and what comes after it.
    #[cycle(write)]
    fn write<O: Output>(&self, out: &mut O) -> Result<(), AllocError>
        ensures { OnOk result (Gets O.got out.old (node_bytes (plain_node self.now)) out.new) }
    {
        out.put(&[self.tag().byte()])?;
        match self {
            NodeDump::Atom(starts) => starts.write(out),
            NodeDump::Eps => Ok(()),
            NodeDump::Or(left, right) => {
                left.write(out)?;
                right.write(out)
            }
            NodeDump::Split(left, right, entries) => {
                left.write(out)?;
                right.write(out)?;
                entries.write(out)
            }
            NodeDump::Iter(inner, entries) => {
                inner.write(out)?;
                entries.write(out)
            }
            NodeDump::Combine(left, right) => {
                left.write(out)?;
                right.write(out)
            }
            NodeDump::Apply(inner) => inner.write(out),
            NodeDump::Compose(left, runners) => {
                left.write(out)?;
                runners.write(out)
            }
            NodeDump::Collect(tracks) => tracks.write(out),
        }
    }
}
