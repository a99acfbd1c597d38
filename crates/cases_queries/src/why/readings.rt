//! How many readings the shortest words with two readings have.

#[derive(Clone, Copy, PartialEq, Eq)]
pub(crate) enum Readings {
    /// Each has two.
    Two,
    /// Some has more.
    More,
}

impl Readings {
    /// What the table says before that, and what it says about readings.
    pub(crate) fn of(wanted: &str) -> (&str, Readings) {
        match wanted.strip_suffix(" more") {
            Some(wanted) => (wanted, Readings::More),
            None => (wanted, Readings::Two),
        }
    }
}
