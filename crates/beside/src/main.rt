//! The program: passes its words, their sources and standard output to the top call.
#![tactic(auto)]

use beside_run::{Exit, beside};
use io_edge::{LazyFile, WriterSink};
use std::env;
use std::io::{self, ErrorKind};
use std::process::ExitCode;
use stream_run::Status;

/// The exit status if the system does not give the words.
const NO_WORDS: u8 = 9;

fn main(rt: HostRuntime) -> ExitCode {
    match run(rt) {
        Ok(exit) => ExitCode::from(exit.number()),
        Err(error) if error.kind() == ErrorKind::OutOfMemory => ExitCode::from(
            Status::Memory.number(),
        ),
        Err(_) => ExitCode::from(NO_WORDS),
    }
}

fn run(rt: HostRuntime) -> io::Result<Exit> {
    let words: Vec<String> = env::args(&rt)?.skip(1).collect(rt.alloc())?;
    call(rt, &words)
}

fn call(rt: HostRuntime, words: &[String]) -> io::Result<Exit> {
    let alloc = rt.alloc();
    let mut queries = query_sources(rt, words)?;
    let path = words.last().map_or("-", |word| word.as_str());
    // It is boxed, since each later exit drops it.
    let mut items = Box::new(alloc, LazyFile::new(rt, alloc, path)?)?;
    let mut out = WriterSink::new(io::writer(&rt), alloc)?;
    Ok(beside(alloc, words, &mut queries, &mut *items, &mut out))
}

// A source for each word between the first and the last one.
fn query_sources(rt: HostRuntime, words: &[String]) -> io::Result<Vec<LazyFile<HostRuntime>>> {
    let alloc = rt.alloc();
    let mut sources = Vec::new(alloc);
    let [_command, paths @ .., _items] = words else {
        return Ok(sources);
    };
    for path in paths {
        sources.push(LazyFile::new(rt, alloc, path.as_str())?)?;
    }
    Ok(sources)
}
