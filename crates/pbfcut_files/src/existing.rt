//! What is at a path, looked up without opening it: to open a pipe waits for its other end, and to open some devices does something.

use crate::disk::parent_folder;
use std::fs::{self, File, Metadata};
use std::os::unix::fs::MetadataExt;

/// Which file it is, by whatever name.
#[derive(Clone, Copy, PartialEq, Eq, PartialOrd, Ord)]
pub struct Identity {
    device: u64,
    number: u64,
}

impl Identity {
    fn of(metadata: &Metadata) -> Identity {
        Identity {
            device: metadata.dev(),
            number: metadata.ino(),
        }
    }
}

/// The plain file at a path, also one that a link leads to.
pub fn plain_file_at(rt: &HostRuntime, path: &str) -> Option<Identity> {
    match fs::metadata(rt, path) {
        Ok(metadata) if metadata.is_file() => Some(Identity::of(&metadata)),
        _ => None,
    }
}

/// A name in a folder, by whatever path the folder is reached.
#[derive(Drop, PartialEq, Eq, PartialOrd, Ord)]
pub struct Entry {
    folder: Identity,
    name: String,
}

impl Entry {
    /// What this path is in its folder, if that is there, and there is memory for it.
    pub fn at(rt: &HostRuntime, path: &str) -> Option<Entry> {
        let folder = fs::metadata(rt, parent_folder(path)).ok()?;
        let name = match path.rsplit_once('/') {
            Some((_, name)) => name,
            None => path,
        };
        Some(Entry {
            folder: Identity::of(&folder),
            name: String::from_str(rt.alloc(), name).ok()?,
        })
    }
}

/// The plain file that standard output is, where the system shows it.
pub fn plain_screen(rt: &HostRuntime) -> Option<Identity> {
    plain_file_at(rt, "/proc/self/fd/1")
}

/// What is known of the plain file at a path, if one is there, and no link to one.
pub(crate) fn plain_metadata(rt: &HostRuntime, path: &str) -> Option<Metadata> {
    match fs::symlink_metadata(rt, path) {
        Ok(metadata) if metadata.is_file() => Some(metadata),
        _ => None,
    }
}

/// Whether a plain file is there, and no link to one.
pub fn is_plain(rt: &HostRuntime, path: &str) -> bool {
    plain_metadata(rt, path).is_some()
}

/// Whether an empty plain file is there, and no link to one.
pub(crate) fn has_no_bytes(rt: &HostRuntime, path: &str) -> bool {
    match plain_metadata(rt, path) {
        Some(metadata) => metadata.len() == 0,
        None => false,
    }
}

/// Whether something is there that can be opened for reading. A pipe, a device or a socket counts, and is not opened.
fn is_there(rt: &HostRuntime, path: &str) -> bool {
    match fs::metadata(rt, path) {
        Ok(metadata) if metadata.is_file() || metadata.is_dir() => File::open(rt, path).is_ok(),
        Ok(_) => true,
        Err(_) => false,
    }
}

/// The system's number of the reason, if two files more can't be open now: OUT, and one that it replaces. The root folder can be opened everywhere.
pub fn fault_of_any_file(rt: &HostRuntime) -> Option<i32> {
    let first = File::open(rt, "/");
    let second = File::open(rt, "/");
    match (first, second) {
        (Ok(_), Ok(_)) => None,
        (Err(error), _) | (_, Err(error)) => error.raw_os_error(),
    }
}

/// Whether something has OUT's name, unless it is a plain file that is to be replaced.
pub fn is_taken(rt: &HostRuntime, path: &str, overwrite: bool) -> bool {
    // One look: between two another run may make the file that is to be replaced.
    match fs::symlink_metadata(rt, path) {
        Ok(metadata) if overwrite && metadata.is_file() => false,
        Ok(_) => is_there(rt, path),
        Err(_) => false,
    }
}
