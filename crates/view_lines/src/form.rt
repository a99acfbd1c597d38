//! In which form lines are viewed.

/// How the lines of a stream are written with their answers.
#[derive(Clone, Copy, Debug, PartialEq, Eq)]
pub enum Form {
    /// An object of JSON a line.
    Json,
    /// Cells with commas between them.
    Csv,
    /// Cells with tabs between them.
    Tsv,
    /// Columns for a person.
    Columns,
    /// Columns for a person, with skipped lines dimmed.
    Dimmed,
}
