//! Asks for the shard, the mask and the routes of each folder, which has a query and its items.
#![tactic(auto)]

use io_edge::{LazyFile, Source, WriterSink};
use shard_run::shard;
use std::alloc::{AllocError, Global};
use std::fs::DirEntry;
use std::{fs, io};
use stream_run::Status;

fn main(rt: HostRuntime) -> io::Result<()> {
    for name in folders(&rt)?.iter() {
        println!(rt; "{name}")?;
        run_each(rt, name.as_str())?;
    }
    Ok(())
}

/// The folders where the program is started, in the order of their names.
fn folders(rt: &HostRuntime) -> io::Result<Vec<String>> {
    let mut names = Vec::new(rt.alloc());
    for entry in fs::read_dir(rt, ".")? {
        push_folder(rt.alloc(), &mut names, &entry?)?;
    }
    names.sort()?;
    Ok(names)
}

fn push_folder(alloc: Global, names: &mut Vec<String>, entry: &DirEntry) -> io::Result<()> {
    if entry.file_type()?.is_dir() {
        names.push(String::from_str(alloc, entry.file_name())?)?;
    }
    Ok(())
}

fn run_each(rt: HostRuntime, name: &str) -> io::Result<()> {
    let query = format!(in rt.alloc(); "{name}/query.sqre")?;
    let items = format!(in rt.alloc(); "{name}/items.csv")?;
    run(rt, &["part", query.as_str()])?;
    run(rt, &["mask", query.as_str()])?;
    run(rt, &["route", query.as_str(), "3", items.as_str()])
}

fn run(rt: HostRuntime, words: &[&str]) -> io::Result<()> {
    let words = owned(rt.alloc(), words)?;
    let status = run_with(rt, &words)? as u8;
    println!(rt; "status {status}")
}

fn owned(alloc: Global, words: &[&str]) -> Result<Vec<String>, AllocError> {
    let mut copies = Vec::new(alloc);
    for word in words {
        copies.push(String::from_str(alloc, word)?)?;
    }
    Ok(copies)
}

// Each value is made in a function of its own, since it is dropped at each later step that fails.
fn run_with(rt: HostRuntime, words: &[String]) -> io::Result<Status> {
    let mut query = LazyFile::new(rt, rt.alloc(), word(words, 1))?;
    run_query(rt, words, &mut query)
}

fn run_query<Q: Source>(rt: HostRuntime, words: &[String], query: &mut Q) -> io::Result<Status> {
    let mut items = LazyFile::new(rt, rt.alloc(), word(words, 3))?;
    run_over(rt, words, query, &mut items)
}

fn run_over<Q: Source, S: Source>(
    rt: HostRuntime,
    words: &[String],
    query: &mut Q,
    items: &mut S,
) -> io::Result<Status> {
    let mut out = WriterSink::new(io::writer(&rt), rt.alloc())?;
    Ok(shard(rt.alloc(), words, query, items, &mut out))
}

fn word(words: &[String], at: usize) -> &str {
    words.get(at).map_or("-", |word| word.as_str())
}
