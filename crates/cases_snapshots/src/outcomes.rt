//! How often each thing came of a snapshot.

use crate::resumed::Outcome;
use runner_snapshot::Flaw;

#[derive(Clone, Copy, Debug, Default, PartialEq, Eq)]
pub(crate) struct Outcomes {
    pub(crate) long: u32,
    pub(crate) head: u32,
    pub(crate) form: u32,
    pub(crate) query: u32,
    pub(crate) unfit: u32,
    /// Runs that went on to the end of the items.
    pub(crate) runs: u32,
    /// All else, which should not be.
    pub(crate) others: u32,
}

impl Outcomes {
    pub(crate) fn add(&mut self, outcome: Outcome) {
        let count = match outcome {
            Outcome::Bad(Flaw::Long) => &mut self.long,
            Outcome::Bad(Flaw::Head) => &mut self.head,
            Outcome::Bad(Flaw::Form) => &mut self.form,
            Outcome::Bad(Flaw::Query) => &mut self.query,
            Outcome::Bad(Flaw::Unfit) => &mut self.unfit,
            Outcome::Ran => &mut self.runs,
            Outcome::Other => &mut self.others,
        };
        *count = count.saturating_add(1);
    }
}
