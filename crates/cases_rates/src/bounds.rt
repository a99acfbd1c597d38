//! How many starts of queries may be live at one time, and how much is kept for them.

use crate::scope::Scope;
use crate::stop::Stop;
use crate::table::table_of;
use memory_bound::{places, slots};
use std::alloc::Global;

/// Each query of the table with its bounds.
pub(crate) fn report(alloc: Global, table: &str) -> Result<String, Stop> {
    let table = table_of(alloc, table)?;
    let mut text = String::new(alloc);
    for line in &table.cases {
        add_query(alloc, &mut text, &table.scope, line)?;
    }
    Ok(text)
}

fn add_query(alloc: Global, text: &mut String, scope: &Scope, line: &str) -> Result<(), Stop> {
    let query = scope.query(alloc, line)?;
    let (places, slots) = (places(query.as_ref()), slots(query.as_ref()));
    Ok(writeln!(text, "{line}: {places} places, {slots} slots")?)
}
