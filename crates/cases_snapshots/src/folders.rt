//! The folders of the cases.
use std::alloc::Global;
use std::fs::DirEntry;
use std::{fs, io};

/// The folders where the program is started, in the order of their names.
pub(crate) fn folders(rt: &HostRuntime) -> io::Result<Vec<String>> {
    let mut names = Vec::new(rt.alloc());
    push_folders(rt, &mut names)?;
    names.sort()?;
    Ok(names)
}

fn push_folders(rt: &HostRuntime, names: &mut Vec<String>) -> io::Result<()> {
    for entry in fs::read_dir(rt, ".")? {
        push_folder(rt.alloc(), names, &entry?)?;
    }
    Ok(())
}

fn push_folder(alloc: Global, names: &mut Vec<String>, entry: &DirEntry) -> io::Result<()> {
    if entry.file_type()?.is_dir() {
        names.push(String::from_str(alloc, entry.file_name())?)?;
    }
    Ok(())
}
