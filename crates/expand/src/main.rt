//! The program: passes its words, a source and standard output to the top call.
#![tactic(auto)]

use expand_run::{Status, expand};
use io_edge::{LazyFile, WriterSink};
use std::env;
use std::io::{self, ErrorKind};
use std::process::ExitCode;

/// The exit status if the system does not give the words.
const NO_WORDS: u8 = 9;

fn main(rt: HostRuntime) -> ExitCode {
    match run(rt) {
        Ok(status) => ExitCode::from(status.number()),
        Err(error) if error.kind() == ErrorKind::OutOfMemory => ExitCode::from(
            Status::Memory.number(),
        ),
        Err(_) => ExitCode::from(NO_WORDS),
    }
}

fn run(rt: HostRuntime) -> io::Result<Status> {
    let words: Vec<String> = env::args(&rt)?.skip(1).collect(rt.alloc())?;
    call(rt, &words)
}

// The query is the file that the second word names, or standard input if there is no word.
fn call(rt: HostRuntime, words: &[String]) -> io::Result<Status> {
    let alloc = rt.alloc();
    let path = words.get(1).map_or("-", |word| word.as_str());
    let mut query = LazyFile::new(rt, alloc, path)?;
    let mut out = WriterSink::new(io::writer(&rt), alloc)?;
    Ok(expand(alloc, words, &mut query, &mut out))
}
