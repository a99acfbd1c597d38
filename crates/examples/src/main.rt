//! Runs the examples, one after the other. Each is a folder with a query and its readings.
#![tactic(auto)]

use io_edge::{LazyFile, Source, WriterSink};
use sqre_run::sqre;
use std::alloc::{AllocError, Global};
use std::fs::DirEntry;
use std::{fs, io};
use stream_run::Status;

fn main(rt: HostRuntime) -> io::Result<()> {
    for name in folders(&rt)?.iter() {
        println!(rt; "{name}")?;
        let status = run(rt, name.as_str())? as u8;
        println!(rt; "status {status}")?;
    }
    Ok(())
}

/// The folders where the program is started, in the order of their names.
fn folders(rt: &HostRuntime) -> io::Result<Vec<String>> {
    let mut names = Vec::new(rt.alloc());
    for entry in fs::read_dir(rt, ".")? {
        push_folder(rt.alloc(), &mut names, &entry?)?;
    }
    names.sort()?;
    Ok(names)
}

fn push_folder(alloc: Global, names: &mut Vec<String>, entry: &DirEntry) -> io::Result<()> {
    if entry.file_type()?.is_dir() {
        names.push(String::from_str(alloc, entry.file_name())?)?;
    }
    Ok(())
}

fn run(rt: HostRuntime, name: &str) -> io::Result<Status> {
    let words = words(rt.alloc(), name)?;
    run_with(rt, &words)
}

/// The words for a run over the files of the folder.
fn words(alloc: Global, name: &str) -> Result<Vec<String>, AllocError> {
    let mut words = Vec::new(alloc);
    words.push(String::from_str(alloc, "run")?)?;
    words.push(format!(in alloc; "{name}/query.sqre")?)?;
    words.push(format!(in alloc; "{name}/readings.csv")?)?;
    Ok(words)
}

// Each value is made in a function of its own, since it is dropped at each later step that fails.
fn run_with(rt: HostRuntime, words: &[String]) -> io::Result<Status> {
    let mut query = LazyFile::new(rt, rt.alloc(), word(words, 1))?;
    run_query(rt, words, &mut query)
}

fn run_query<Q: Source>(rt: HostRuntime, words: &[String], query: &mut Q) -> io::Result<Status> {
    let mut items = LazyFile::new(rt, rt.alloc(), word(words, 2))?;
    run_over(rt, words, query, &mut items)
}

fn run_over<Q: Source, S: Source>(
    rt: HostRuntime,
    words: &[String],
    query: &mut Q,
    items: &mut S,
) -> io::Result<Status> {
    let mut out = WriterSink::new(io::writer(&rt), rt.alloc())?;
    Ok(sqre(rt.alloc(), words, query, items, &mut out))
}

fn word(words: &[String], at: usize) -> &str {
    words.get(at).map_or("-", |word| word.as_str())
}
