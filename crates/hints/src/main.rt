//! The program: passes its words, two sources and standard output to the top call.
#![tactic(auto)]

use hints_run::hints;
use io_edge::{LazyFile, WriterSink};
use std::env;
use std::io::{self, ErrorKind};
use std::process::ExitCode;
use stream_run::Status;

/// The exit status if the system does not give the words.
const NO_WORDS: u8 = 9;

fn main(rt: HostRuntime) -> ExitCode {
    match run(rt) {
        Ok(status) => ExitCode::from(status.number()),
        Err(error) if error.kind() == ErrorKind::OutOfMemory => ExitCode::from(
            Status::Memory.number(),
        ),
        Err(_) => ExitCode::from(NO_WORDS),
    }
}

fn run(rt: HostRuntime) -> io::Result<Status> {
    let words: Vec<String> = env::args(&rt)?.skip(1).collect(rt.alloc())?;
    call(rt, &words)
}

fn call(rt: HostRuntime, words: &[String]) -> io::Result<Status> {
    let alloc = rt.alloc();
    let mut query = source(rt, words, 1)?;
    let mut items = source(rt, words, 2)?;
    let mut out = WriterSink::new(io::writer(&rt), alloc)?;
    Ok(hints(alloc, words, &mut *query, &mut *items, &mut out))
}

// The file that the word names, or standard input if there is no word. It is boxed, since each
// later exit drops it.
fn source(rt: HostRuntime, words: &[String], at: usize) -> io::Result<Box<LazyFile<HostRuntime>>> {
    let alloc = rt.alloc();
    let path = words.get(at).map_or("-", |word| word.as_str());
    Ok(Box::new(alloc, LazyFile::new(rt, alloc, path)?)?)
}
