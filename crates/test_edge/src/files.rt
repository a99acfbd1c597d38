// A file of the system that is created, read and changed.
use crate::assertions::same;
use io_edge::{Failed, LazyFile, Source};
use std::alloc::AllocError;
use std::fs;
use std::process::Abort;
use std::rt::Files;
use std::test::Fail;

const PATH: &str = "later";

// A read into a buffer of four bytes: what it gives, and what is then in the buffer.
fn reads<S: Source>(
    rt: &impl Abort,
    source: &mut S,
    room: &mut [u8; 4],
    wanted: Result<usize, Failed>,
    filled: &[u8],
) {
    same(rt, source.read(&mut []), Ok(0));
    same(rt, source.read(room), wanted);
    same(rt, room.as_slice(), filled);
}

fn is_read_to_its_end<S: Source>(rt: &impl Abort, source: &mut S) {
    let mut room = [0; 4];
    reads(rt, source, &mut room, Ok(4), b"hell");
    reads(rt, source, &mut room, Ok(1), b"oell");
    reads(rt, source, &mut room, Ok(0), b"oell");
}

fn is_opened_at_a_read<R: Abort + Files, S: Source>(rt: &R, source: &mut S) -> Result<(), Fail> {
    reads(rt, source, &mut [0; 4], Err(Failed), b"\0\0\0\0");
    fs::write(rt, PATH, "hello")?;
    is_read_to_its_end(rt, source);
    fs::write(rt, PATH, "hello again")?;
    reads(rt, source, &mut [0; 4], Ok(0), b"\0\0\0\0");
    Ok(())
}

fn file(rt: HostRuntime) -> Result<Box<LazyFile<HostRuntime>>, AllocError> {
    let file = LazyFile::new(rt, rt.alloc(), PATH)?;
    Ok(Box::new(rt.alloc(), file)?)
}

// Whether there was a file.
fn remove<R: Files>(rt: &R) -> bool {
    fs::remove_file(rt, PATH).is_ok()
}

#[test]
fn a_file_is_opened_at_a_read_and_read_to_its_first_end(rt: HostRuntime) -> Result<(), Fail> {
    let _was_there = remove(&rt);
    let mut file = file(rt)?;
    is_opened_at_a_read(&rt, &mut *file)?;
    same(&rt, remove(&rt), true);
    Ok(())
}
