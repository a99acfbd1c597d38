//! The grammar from which cases are drawn.

use crate::draws::Draws;
use std::alloc::{AllocError, Global};

/// Rules, the first of which is that of a case.
#[derive(Drop)]
pub struct Grammar {
    pub(crate) rules: Vec<Rule>,
    /// The bytes of all parts, one after the other.
    texts: Vec<u8>,
}

/// What a name may stand for: one of the alternatives, drawn by their weights.
#[derive(Drop)]
pub(crate) struct Rule {
    pub(crate) name: String,
    pub(crate) alternatives: Vec<Alternative>,
    pub(crate) weight: usize,
}

#[derive(Drop)]
pub(crate) struct Alternative {
    pub(crate) parts: Vec<Part>,
    pub(crate) weight: usize,
}

#[derive(Clone, Copy)]
pub(crate) enum Part {
    Bytes(ByteRange),
    /// A rule by its place in the grammar.
    Rule(usize),
    Mark(Mark),
}

/// Where bytes lie among those of all parts.
#[derive(Clone, Copy)]
pub(crate) struct ByteRange {
    from: usize,
    to: usize,
}

#[derive(Clone, Copy)]
pub(crate) enum Mark {
    /// Any byte.
    Byte,
    /// A number that is one more each time.
    Count,
    /// What is kept begins here.
    Keep,
    /// The part that began last ends here, and is kept.
    Kept,
    /// What is kept, once more.
    Again,
    /// The query ends here, and the items begin.
    Items,
}

impl Grammar {
    pub(crate) fn new(alloc: Global) -> Grammar {
        Grammar {
            rules: Vec::new(alloc),
            texts: Vec::new(alloc),
        }
    }

    /// The place of the rule with the name.
    pub(crate) fn number_of(&self, name: &str) -> Option<usize> {
        self.rules
            .iter()
            .position(|rule| rule.name.as_str() == name)
    }

    /// Any rule.
    pub(crate) fn any_rule(&self, draws: &mut Draws) -> Option<&Rule> {
        self.rules.get(draws.below(self.rules.len()))
    }

    /// Adds a part with these bytes.
    pub(crate) fn add_bytes(&mut self, bytes: &[u8]) -> Result<Part, AllocError> {
        let from = self.texts.len();
        self.texts.extend_from_slice(bytes)?;
        let to = self.texts.len();
        Ok(Part::Bytes(ByteRange { from, to }))
    }

    pub(crate) fn bytes_at(&self, place: ByteRange) -> &[u8] {
        self.texts.get(place.from..place.to).unwrap_or(&[])
    }
}

impl Rule {
    /// An alternative, drawn by the weights.
    pub(crate) fn drawn(&self, draws: &mut Draws) -> Option<&Alternative> {
        let mut left = draws.below(self.weight);
        for alternative in self.alternatives.iter() {
            if left < alternative.weight {
                return Some(alternative);
            }
            left -= alternative.weight;
        }
        None
    }
}
