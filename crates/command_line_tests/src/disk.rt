//! The files of the system.

use command_line::{DiskFiles, FileFault, Files};
use std::io::ErrorKind;
use std::path::PathBuf;
use std::{env, fs, io, process};
use test_support::Failed;

/// The path of a file of this process.
pub(crate) fn place(rt: &HostRuntime, name: &str) -> Result<PathBuf, Failed> {
    let id = process::id(rt.process());
    let name = format!(in rt.alloc(); "fabcommit-{id}-{name}")?;
    Ok(env::temp_dir(rt)?.join(rt.alloc(), name.as_str())?)
}

fn is_written_and_read(rt: &HostRuntime, path: &str) -> Result<bool, FileFault> {
    let files = DiskFiles::new(rt);
    files.write(path, b"\0 longer")?;
    files.write(path, b"\xff\n")?;
    Ok(files.read(rt.alloc(), path)?.as_slice() == b"\xff\n".as_slice())
}

fn read_fault(rt: &HostRuntime, path: &str) -> Option<FileFault> {
    DiskFiles::new(rt).read(rt.alloc(), path).err()
}

// Whether it can be written, read and removed, and then isn't there.
fn is_file_of_its_own(rt: &HostRuntime) -> Result<bool, Failed> {
    let place = place(rt, "disk")?;
    let path = place.as_str();
    Ok(
        is_written_and_read(rt, path) == Ok(true)
            && fs::remove_file(rt, path).is_ok()
            && read_fault(rt, path) == Some(FileFault::Inaccessible),
    )
}

#[test]
fn a_file_is_written_anew_and_read(rt: HostRuntime) -> Result<(), Failed> {
    assert!(rt; is_file_of_its_own(&rt)?);
    Ok(())
}

static NO_FILES: [&str; 3] = ["/", "", "a\0b"];

fn is_no_file(rt: &HostRuntime, path: &str) -> bool {
    read_fault(rt, path) == Some(FileFault::Inaccessible)
        && DiskFiles::new(rt).write(path, b"x") == Err(FileFault::Inaccessible)
}

#[test]
fn folders_are_no_files(rt: HostRuntime) {
    for path in &NO_FILES {
        assert!(rt; is_no_file(&rt, path), "{path:?}");
    }
}

fn fault_of(kind: ErrorKind) -> FileFault {
    FileFault::from(io::Error::from(kind))
}

#[test]
fn want_of_memory_is_told_apart(rt: HostRuntime) {
    assert!(rt; fault_of(ErrorKind::OutOfMemory) == FileFault::Memory);
    assert!(rt; fault_of(ErrorKind::PermissionDenied) == FileFault::Inaccessible);
}
