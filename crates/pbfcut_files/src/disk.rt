//! Has the system write a file and its folder to the disk.

use std::fs::{self, File};
use std::io::{self, ErrorKind};

/// The system's number of a disk that fails, as errno.h has it.
const EIO: i32 = 5;

/// The folder of a path: what comes before its last slash, or the one that the program runs in.
pub(crate) fn parent_folder(path: &str) -> &str {
    match path.rsplit_once('/') {
        Some(("", _)) => "/",
        Some((folder, _)) => folder,
        None => ".",
    }
}

/// Opens the folder of a path, if it is one and may be read.
pub(crate) fn open_folder(rt: &HostRuntime, path: &str) -> Option<File> {
    let folder = parent_folder(path);
    if !fs::metadata(rt, folder).ok()?.is_dir() {
        return None;
    }
    File::open(rt, folder).ok()
}

/// Whether the reason is that such a file is never synced.
fn is_never_synced(error: &io::Error) -> bool {
    matches!(
        error.kind(),
        ErrorKind::InvalidInput | ErrorKind::ReadOnlyFilesystem | ErrorKind::Unsupported
    )
}

/// Whether the reason is that data are lost, or have no room.
fn is_loss(error: &io::Error) -> bool {
    matches!(
        error.kind(),
        ErrorKind::StorageFull | ErrorKind::QuotaExceeded
    ) || error.raw_os_error() == Some(EIO)
}

/// Syncs a file. What `close` would report, as a full quota or a server that is gone, is reported here: std closes a file when it is dropped, and an
/// error of that is lost.
pub(crate) fn sync_file(file: &File) -> io::Result<()> {
    match file.sync_all() {
        Err(error) if !is_never_synced(&error) => Err(error),
        _ => Ok(()),
    }
}

/// Syncs the folder of a file, with the names in it, if it may be read. Some file systems can't, and that is no failure.
pub fn sync_name(rt: &HostRuntime, path: &str) -> io::Result<()> {
    let Some(folder) = open_folder(rt, path) else {
        return Ok(());
    };
    match folder.sync_all() {
        Err(error) if is_loss(&error) => Err(error),
        _ => Ok(()),
    }
}
