//! The program: each of its words names the file of a query, whose refusal is explained.
#![tactic(auto)]

use explain_run::{Status, explain};
use io_edge::{LazyFile, Sink, WriterSink};
use std::env;
use std::io::{self, ErrorKind};
use std::process::ExitCode;

/// The exit status if there are no words.
const USAGE: u8 = 2;

/// The exit status if the system does not give the words.
const NO_WORDS: u8 = 9;

fn main(rt: HostRuntime) -> ExitCode {
    match run(rt) {
        Ok(status) => ExitCode::from(status),
        Err(error) if error.kind() == ErrorKind::OutOfMemory => ExitCode::from(
            Status::Memory.number(),
        ),
        Err(_) => ExitCode::from(NO_WORDS),
    }
}

fn run(rt: HostRuntime) -> io::Result<u8> {
    let names: Vec<String> = env::args(&rt)?.skip(1).collect(rt.alloc())?;
    if names.is_empty() {
        return Ok(USAGE);
    }
    let status = explain_files(rt, &names)?;
    Ok(status.number())
}

fn explain_files(rt: HostRuntime, names: &[String]) -> io::Result<Status> {
    let mut out = WriterSink::new(io::writer(&rt), rt.alloc())?;
    explain_each(rt, names, &mut out)
}

// Explains each query, up to the first call that fails.
fn explain_each<W: Sink>(rt: HostRuntime, names: &[String], out: &mut W) -> io::Result<Status> {
    let mut status = Status::Accepted;
    for name in names {
        match explain_file(rt, name.as_str(), out)? {
            Status::Accepted => {}
            Status::Explained => status = Status::Explained,
            fault => return Ok(fault),
        }
    }
    Ok(status)
}

fn explain_file<W: Sink>(rt: HostRuntime, name: &str, out: &mut W) -> io::Result<Status> {
    let alloc = rt.alloc();
    let mut query = LazyFile::new(rt, alloc, name)?;
    Ok(explain(alloc, name, &mut query, out))
}
