//! What is kept for a query while its word goes by.

use crate::Progress;
use compose_eval::Instances;
use iter_eval::Chain;
use joined_texts::Joined;
use map_collect::Tracks;
use split_eval::Pending;
use value_ops::Value;

/// All pieces of the word that the query reads, from all live starts at once.
#[derive(Drop)]
#[cycle(node)]
pub struct Node {
    pub state: State,
}

/// What is kept, by the shape of the query.
#[derive(Drop)]
#[cycle(node)]
pub enum State {
    /// For an atom: the start at the end of the word, if it is one.
    Atom(Option<u64>),
    /// For the empty word: nothing.
    Eps,
    /// For an or: both operands.
    Or(Box<Node>, Box<Node>),
    /// For an apply: the operand.
    Apply(Box<Node>),
    /// For a split: the operands, and the left values after which a right piece may still come.
    Split(Box<Node>, Box<Node>, Pending<Value>),
    /// For a combine: the operands.
    Combine(Box<Node>, Box<Node>),
    /// For an iter: the operand, and the values so far after which a further piece may come.
    Iter(Box<Node>, Chain<Value>),
    /// For a compose: the left operand, and the runners of the right one, fed or idle.
    Compose(Box<Node>, Instances<Progress>),
    /// For a collect: the live starts, each with a state of the rate's automaton, a runner for each
    /// key, and the runner that is copied for a new key. Also room for a key of several columns.
    Collect(Tracks<Progress>, Joined),
}
