//! A query beside what it is rewritten as.

use crate::commands::written;
use crate::rewriting::rewritten;
use std::alloc::{AllocError, Global};
use std::{fs, io, str};

// Each value is made in a function of its own, since it is dropped at each later step that fails.

/// Reports the text of what the query of a folder is rewritten as, what the commands say of both,
/// and whether they have the same answers.
pub(crate) fn compare(rt: HostRuntime, name: &str) -> io::Result<()> {
    let query = contents(rt, name, "query.sqre")?;
    compare_query(rt, name, query.as_slice())
}

/// The bytes of a file of a folder.
fn contents(rt: HostRuntime, folder: &str, name: &str) -> io::Result<Vec<u8>> {
    let path = format!(in rt.alloc(); "{folder}/{name}")?;
    fs::read(&rt, path.as_str())
}

fn compare_query(rt: HostRuntime, name: &str, query: &[u8]) -> io::Result<()> {
    let text = rewritten(rt.alloc(), query)?;
    report(rt, name, query, text.as_slice())
}

fn report(rt: HostRuntime, name: &str, query: &[u8], text: &[u8]) -> io::Result<()> {
    print!(rt; "{}", str::from_utf8(text).unwrap_or("no text"))?;
    for command in ["check", "bound"] {
        report_verdict(rt, command, "query", query)?;
        report_verdict(rt, command, "text", text)?;
    }
    report_answers(rt, name, query, text)?;
    report_again(rt, text)
}

fn report_verdict(rt: HostRuntime, command: &str, whose: &str, query: &[u8]) -> io::Result<()> {
    let verdict = written(rt.alloc(), &[command, "query"], query, &[])?;
    print!(rt; "{command} of the {whose}: {verdict}")
}

fn report_answers(rt: HostRuntime, name: &str, query: &[u8], text: &[u8]) -> io::Result<()> {
    let items = contents(rt, name, "items.csv")?;
    compare_answers(rt, query, text, items.as_slice())
}

fn compare_answers(rt: HostRuntime, query: &[u8], text: &[u8], items: &[u8]) -> io::Result<()> {
    let before = answers(rt.alloc(), query, items)?;
    let after = answers(rt.alloc(), text, items)?;
    let count = before.lines().count();
    let compared = compared(before.as_bytes(), after.as_bytes());
    println!(rt; "{count} answers: {compared}")
}

fn answers(alloc: Global, query: &[u8], items: &[u8]) -> Result<String, AllocError> {
    written(alloc, &["run", "query", "items"], query, items)
}

/// Reports whether the text is rewritten as itself.
fn report_again(rt: HostRuntime, text: &[u8]) -> io::Result<()> {
    let again = rewritten(rt.alloc(), text)?;
    let compared = compared(again.as_slice(), text);
    println!(rt; "rewritten again: {compared}")
}

fn compared(one: &[u8], other: &[u8]) -> &'static str {
    if one == other {
        "the same"
    } else {
        "different"
    }
}
