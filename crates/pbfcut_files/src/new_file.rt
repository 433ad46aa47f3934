//! Files that are made new: one that exists is never opened, so none is ever emptied.

use crate::disk::open_folder;
use crate::existing::{has_no_bytes, plain_metadata};
use crate::output::OutStream;
use crate::replaced::{is_protected, take_over};
use std::fs::{self, File, OpenOptions};
use std::io::{self, ErrorKind};
use std::os::unix::fs::OpenOptionsExt;

/// The mode of a new file, of which the user's mask takes some bits.
const NEW_MODE: u32 = 0o666;

/// The mode of a new file that only its owner reads.
const OWN_MODE: u32 = 0o600;

fn open_new(rt: &HostRuntime, name: &str, mode: u32) -> io::Result<File> {
    OpenOptions::new()
        .write(true)
        .create_new(true)
        .mode(mode)
        .open(rt, name)
}

/// Removes a file that this run has made, and can't use.
fn discard(rt: &HostRuntime, name: &str) {
    // If it can't be removed, it is an empty file by a name that no other has.
    let _ = fs::remove_file(rt, name);
}

/// Makes a file that is to replace the plain one at this path, if that is still there: it has its mode and its owner from the start.
fn open_replacing(rt: &HostRuntime, name: &str, path: &str) -> io::Result<File> {
    let Some(old) = plain_metadata(rt, path) else {
        return open_new(rt, name, NEW_MODE);
    };
    let file = open_new(rt, name, OWN_MODE)?;
    if is_protected(&file, &old, open_folder(rt, path).as_ref()) {
        discard(rt, name);
        return Err(ErrorKind::PermissionDenied.into());
    }
    take_over(&file, &old);
    Ok(file)
}

/// Makes a file by this name, with a buffer: it is to replace the plain one at the other path, if there is one. On an error there is none.
pub fn make_file(rt: &HostRuntime, name: &str, replaced: Option<&str>) -> io::Result<OutStream> {
    let file = match replaced {
        Some(path) => open_replacing(rt, name, path)?,
        None => open_new(rt, name, NEW_MODE)?,
    };
    let made = OutStream::to_file(rt, file);
    if made.is_err() {
        discard(rt, name);
    }
    made
}

/// Gives a file a name that none has, and takes the other one from it: for a file system without links. An empty file takes the name first, and the
/// whole one is put in its place. It has no other name then: the one that it had may be another file's by now.
pub fn move_new(rt: &HostRuntime, from: &str, to: &str) -> io::Result<()> {
    open_new(rt, to, NEW_MODE)?;
    let moved = fs::rename(rt, from, to);
    if moved.is_err() && has_no_bytes(rt, to) {
        discard(rt, to);
    }
    moved
}
