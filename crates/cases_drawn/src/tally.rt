//! What was seen in all cases.

use crate::answers::Answers;
use crate::refusals::RULES;
use std::alloc::{AllocError, Global};

#[derive(Drop)]
pub(crate) struct Tally {
    accepted: u32,
    refused: [u32; 18],
    lines: u64,
    items: u64,
    compared: u64,
    findings: u32,
}

impl Tally {
    pub(crate) fn new() -> Tally {
        Tally {
            accepted: 0,
            refused: [0; 18],
            lines: 0,
            items: 0,
            compared: 0,
            findings: 0,
        }
    }

    /// Counts a query that is accepted, with what was written, and how many answers were compared.
    pub(crate) fn add_accepted(&mut self, answers: &Answers, compared: u64) {
        self.accepted = self.accepted.saturating_add(1);
        self.lines = self.lines.saturating_add(u64::from(answers.lines));
        self.items = self.items.saturating_add(u64::from(answers.items));
        self.compared = self.compared.saturating_add(compared);
    }

    /// Counts a refusal by the rule at this place of the list.
    pub(crate) fn add_refused(&mut self, rule: usize) {
        if let Some(count) = self.refused.get_mut(rule) {
            *count = count.saturating_add(1);
        }
    }

    pub(crate) fn add_finding(&mut self) {
        self.findings = self.findings.saturating_add(1);
    }

    pub(crate) fn summary(&self, alloc: Global) -> Result<String, AllocError> {
        let mut text = String::new(alloc);
        writeln!(
            text,
            "{} accepted, {} lines, {} items",
            self.accepted, self.lines, self.items
        )?;
        writeln!(text, "{} answers of both engines", self.compared)?;
        for (rule, count) in RULES.iter().zip(self.refused.iter()) {
            writeln!(text, "{count} refused by {rule}")?;
        }
        writeln!(text, "{} findings", self.findings)?;
        Ok(text)
    }
}
