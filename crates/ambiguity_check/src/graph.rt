//! The graph of two readings of one word, the left one and the right one. Both go through the same
//! items side by side, and a node says at which position each of them is:
//!
//!     left reading     p1 --> p2 --> p4 --> p7
//!     items            i1     i2     i3     i4      an item meets both positions of its node
//!     right reading    q1 --> q2 --> q2 --> q5
//!
//! So a walk of nodes to an end is a word with two readings. Whether there is a word with two
//! readings is decided by a search for all nodes to which walks lead. If a reading parts the word
//! into pieces, a node also has a phase, which says how far the two readings have parted.
ghost use Rattle.std.specs.Prelude.{◌≡◌, ◌↔◌, ◌<◌, ℕ};
ghost use Rattle.ambiguity_check.specs.declared.graph.Node.{Node};
ghost use Rattle.ambiguity_check.specs.declared.graph.Phase.{Phase};
ghost use Rattle.ambiguity_check.specs.Walks.{IsIn, rank};
ghost use Rattle.rate_expr.specs.Sets.{Has};

/// How far two readings have parted.
#[derive(Clone, Copy, PartialEq, Eq)]
pub enum Phase {
    /// Both have ended the same pieces of the word.
    Together,
    /// The left reading has ended a piece that the right one continued.
    Parted,
    /// The right reading has ended its piece too.
    Rejoined,
}

impl Phase {
    /// The number of the phase, from 0 to 2.
    pub(crate) fn rank(self) -> usize
        ensures { result ≡ rank self }
    {
        match self {
            Phase::Together => 0,
            Phase::Parted => 1,
            Phase::Rejoined => 2,
        }
    }
}

/// Where two readings are after an item.
#[derive(Clone, Copy)]
pub struct Node {
    pub phase: Phase,
    pub left: u32,
    pub right: u32,
}

/// The nodes of a phase whose positions are in two masks.
#[derive(Clone, Copy)]
pub struct Move {
    pub phase: Phase,
    pub left: u128,
    pub right: u128,
}

/// Where one more item may lead: `stay` if both readings continue their pieces, and `turn` if one
/// of them begins its next piece.
#[derive(Clone, Copy)]
pub struct Moves {
    pub stay: Move,
    pub turn: Option<Move>,
}

/// Two readings of one word. The edges are those of the automata, whatever items there are; which
/// nodes some item meets, only `meets` knows.
pub trait Graph {
    ghost use Rattle.ambiguity_check.specs.declared.graph.Node.{Node};

    // The first item may lead to the node.
    ghost begins: { Self → Node → Type 0 };

    // One more item may lead from the first node to the second.
    ghost continues: { Self → Node → Node → Type 0 };

    // Some item meets both positions of the node.
    ghost meet: { Self → Node → Type 0 };

    /// Where the first item may lead.
    fn starts(&self) -> Moves
        ensures { (node : Node) → IsIn result node ↔ begins self.now node };

    /// Where one more item may lead from the nodes of a row.
    fn moves(&self, phase: Phase, left: u32, rights: u128) -> Moves
        ensures { (node : Node) → IsIn result node ↔ ((right : ℕ) × Has rights right
            × continues self.now (record { phase = phase; left = left; right = right }) node) };

    /// The right positions that some item meets together with the left one.
    fn meets(&self, phase: Phase, left: u32) -> u128
        ensures { (right : ℕ) → Has result right
            ↔ meet self.now (record { phase = phase; left = left; right = right }) };
}
