//! The bytes that say what comes after them.
ghost use Rattle.std.specs.Prelude.{◌≡◌};

/// What a node is.
#[derive(Clone, Copy, Debug, PartialEq, Eq)]
pub(crate) enum NodeTag {
    Atom = 1,
    Eps,
    Or,
    Split,
    Iter,
    Combine,
    Apply,
    Compose,
    Collect,
}

const NODE_TAGS: [NodeTag; 9] = [
    NodeTag::Atom,
    NodeTag::Eps,
    NodeTag::Or,
    NodeTag::Split,
    NodeTag::Iter,
    NodeTag::Combine,
    NodeTag::Apply,
    NodeTag::Compose,
    NodeTag::Collect,
];

impl NodeTag {
    ghost use Rattle.runner_snapshot.specs.Tags.{node_byte, node_tag};

    pub(crate) fn byte(self) -> u8
        ensures { result ≡ node_byte self }
    {
        self as u8
    }

    pub(crate) fn of(byte: u8) -> Option<NodeTag>
        ensures { result ≡ node_tag byte }
    {
        NODE_TAGS.iter().copied().find(|tag| tag.byte() == byte)
    }
}

/// What a value is, or an answer.
#[derive(Clone, Copy, Debug, PartialEq, Eq)]
pub(crate) enum ValueTag {
    Number,
    Overflow,
    DivZero,
    Table,
    Rec,
    /// There is no value.
    Absent = 255,
}

const VALUE_TAGS: [ValueTag; 6] = [
    ValueTag::Number,
    ValueTag::Overflow,
    ValueTag::DivZero,
    ValueTag::Table,
    ValueTag::Rec,
    ValueTag::Absent,
];

impl ValueTag {
    ghost use Rattle.runner_snapshot.specs.Tags.{value_byte, value_tag};

    pub(crate) fn byte(self) -> u8
        ensures { result ≡ value_byte self }
    {
        self as u8
    }

    pub(crate) fn of(byte: u8) -> Option<ValueTag>
        ensures { result ≡ value_tag byte }
    {
        VALUE_TAGS.iter().copied().find(|tag| tag.byte() == byte)
    }
}
