//! Cases as they are drawn.

use crate::case::Case;
use crate::damage::{Spoil, rarity};
use crate::draws::Draws;
use crate::grammar::{ByteRange, Grammar, Mark, Part, Rule};
use std::alloc::{AllocError, Global};

/// More parts than a case has.
const PARTS: u32 = 100_000;

/// When a query, or the items, have this many bytes, only the first alternative of a rule is drawn.
/// The greater number is that of one case in ten.
const LONG: usize = 600;

const VERY_LONG: usize = 6_000;
/// The rule for a term that has no form.
const MISS: &str = "miss";

/// The bytes so far, and the parts that are still to come, the next one last.
#[derive(Drop)]
struct Draft {
    alloc: Global,
    draws: Draws,
    /// One part in this many is spoiled, and none if it is 0.
    rarity: usize,
    long: usize,
    bytes: Vec<u8>,
    waiting: Vec<Part>,
    count: u64,
    starts: Vec<usize>,
    kept: (usize, usize),
    cut: Option<usize>,
}

/// The case of a seed. Some cases are drawn as the grammar says, and some have spoiled parts.
pub fn drawn_case(alloc: Global, grammar: &Grammar, seed: u64) -> Result<Case, AllocError> {
    let mut draft = Draft::new(alloc, seed);
    if let Some(rule) = grammar.rules.first() {
        draft.plan(rule)?;
    }
    for _ in 0..PARTS {
        match draft.waiting.pop() {
            Some(part) => draft.take(grammar, part)?,
            None => break,
        }
    }
    draft.case()
}

impl Draft {
    fn new(alloc: Global, seed: u64) -> Draft {
        let mut draws = Draws::new(seed);
        let rarity = rarity(&mut draws);
        let is_very_long = draws.is_one_of(10);
        Draft {
            alloc,
            draws,
            rarity,
            long: if is_very_long { VERY_LONG } else { LONG },
            bytes: Vec::new(alloc),
            waiting: Vec::new(alloc),
            count: 0,
            starts: Vec::new(alloc),
            kept: (0, 0),
            cut: None,
        }
    }

    fn case(&self) -> Result<Case, AllocError> {
        let cut = self.cut.unwrap_or(self.bytes.len());
        let (query, items) = (self.bytes.get(..cut), self.bytes.get(cut..));
        Ok(Case {
            query: Vec::from_slice(self.alloc, query.unwrap_or(&[]))?,
            items: Vec::from_slice(self.alloc, items.unwrap_or(&[]))?,
        })
    }

    /// Draws an alternative of the rule, whose parts come next.
    fn plan(&mut self, rule: &Rule) -> Result<(), AllocError> {
        let alternative = if self.is_long() {
            rule.alternatives.first()
        } else {
            rule.drawn(&mut self.draws)
        };
        if let Some(alternative) = alternative {
            for part in alternative.parts.iter().rev() {
                self.waiting.push(*part)?;
            }
        }
        Ok(())
    }

    /// Whether the query, or the items after it, are long.
    fn is_long(&self) -> bool {
        self.bytes.len().saturating_sub(self.cut.unwrap_or(0)) >= self.long
    }

    fn take(&mut self, grammar: &Grammar, part: Part) -> Result<(), AllocError> {
        match part {
            Part::Bytes(place) => self.write(grammar, place),
            Part::Rule(number) => self.expand(grammar, number),
            Part::Mark(mark) => self.mark(mark),
        }
    }

    fn write(&mut self, grammar: &Grammar, place: ByteRange) -> Result<(), AllocError> {
        let bytes = grammar.bytes_at(place);
        match self.spoil() {
            None | Some(Spoil::Miss) => self.bytes.extend_from_slice(bytes),
            Some(Spoil::Missing) => match bytes.split_last() {
                Some((_, rest)) => self.bytes.extend_from_slice(rest),
                None => Ok(()),
            },
            Some(Spoil::Doubled) => {
                self.bytes.extend_from_slice(bytes)?;
                self.bytes.extend_from_slice(bytes)
            }
            Some(Spoil::Other) => {
                self.bytes.extend_from_slice(bytes)?;
                self.write_byte()
            }
        }
    }

    fn expand(&mut self, grammar: &Grammar, number: usize) -> Result<(), AllocError> {
        let rule = match self.spoil() {
            None => grammar.rules.get(number),
            Some(Spoil::Missing) => None,
            Some(Spoil::Doubled) => {
                self.waiting.push(Part::Rule(number))?;
                grammar.rules.get(number)
            }
            Some(Spoil::Other) => grammar.any_rule(&mut self.draws),
            Some(Spoil::Miss) => grammar
                .number_of(MISS)
                .and_then(|miss| grammar.rules.get(miss)),
        };
        match rule {
            Some(rule) => self.plan(rule),
            None => Ok(()),
        }
    }

    fn spoil(&mut self) -> Option<Spoil> {
        if self.draws.is_one_of(self.rarity) {
            Some(Spoil::drawn(&mut self.draws))
        } else {
            None
        }
    }

    fn mark(&mut self, mark: Mark) -> Result<(), AllocError> {
        let here = self.bytes.len();
        match mark {
            Mark::Byte => self.write_byte()?,
            Mark::Count => self.write_count()?,
            Mark::Keep => self.starts.push(here)?,
            Mark::Kept => self.kept = (self.starts.pop().unwrap_or(0), here),
            Mark::Again => self.write_again()?,
            Mark::Items => self.cut = self.cut.or(Some(here)),
        }
        Ok(())
    }

    fn write_byte(&mut self) -> Result<(), AllocError> {
        let byte = self.draws.byte();
        Ok(self.bytes.push(byte)?)
    }

    fn write_count(&mut self) -> Result<(), AllocError> {
        self.count = self.count.saturating_add(1);
        let (alloc, count) = (self.alloc, self.count);
        let text = format!(in alloc; "{count}")?;
        self.bytes.extend_from_slice(text.as_bytes())
    }

    fn write_again(&mut self) -> Result<(), AllocError> {
        let (from, to) = self.kept;
        let kept = self.bytes.get(from..to).unwrap_or(&[]);
        let again = Vec::from_slice(self.alloc, kept)?;
        self.bytes.extend_from_slice(&again)
    }
}
