//! A plain file that OUT replaces: whether the user may do that, and what the new file takes over from it.

use crate::disk::open_folder;
use std::fs::{self, File, Metadata, OpenOptions, Permissions};
use std::io::ErrorKind;
use std::os::fd::AsRawFd;
use std::os::unix::fs::{MetadataExt, PermissionsExt, fchown};

/// The bit of a folder whose files only their owners may replace.
const STICKY: u32 = 0o1000;

/// What may be done with a file, and what of it by its group. Who runs it as whom is not taken over: the system drops that with each write.
const PERMISSIONS: u32 = 0o777;

const GROUP: u32 = 0o070;

/// The number of root.
const ROOT: u32 = 0;

/// The number of the mount that an open file belongs to, if the system shows it.
fn mount_of(rt: &HostRuntime, file: &File) -> Option<u64> {
    let number = file.as_raw_fd();
    let path = format!(in rt.alloc(); "/proc/self/fdinfo/{number}").ok()?;
    let text = fs::read_to_string(rt, path.as_str()).ok()?;
    let mount = text.lines().find_map(|line| line.strip_prefix("mnt_id:"))?;
    mount.trim().parse().ok()
}

/// Whether a file is mounted by itself, so that no other can get its name.
fn is_mounted(rt: &HostRuntime, old: &File, folder: Option<&File>) -> bool {
    let Some(folder) = folder else {
        return false;
    };
    match (mount_of(rt, old), mount_of(rt, folder)) {
        (Some(own), Some(around)) => own != around,
        _ => false,
    }
}

/// Whether the user may write to the file at this path, and another file can get its name. It is opened for writing, and left as it is.
fn may_be_replaced(rt: &HostRuntime, path: &str) -> bool {
    let folder = open_folder(rt, path);
    match OpenOptions::new().write(true).open(rt, path) {
        Ok(old) => !is_mounted(rt, &old, folder.as_ref()),
        Err(_) => false,
    }
}

/// Whether OUT is to replace a plain file that is there; `None` if OUT may not be made.
pub fn replaces(rt: &HostRuntime, path: &str, overwrite: bool) -> Option<bool> {
    // Without a name there is no file, though there would be a part.
    if path.is_empty() {
        return None;
    }
    match fs::symlink_metadata(rt, path) {
        Err(error) if error.kind() == ErrorKind::NotFound => Some(false),
        // As it isn't reached, or is longer than a name can be.
        Err(_) => None,
        Ok(old) if overwrite && old.is_file() && may_be_replaced(rt, path) => Some(true),
        Ok(_) => None,
    }
}

/// Whether the folder, as `/tmp`, lets only the owner of the old file replace it, and that is another user.
pub(crate) fn is_protected(new: &File, old: &Metadata, folder: Option<&File>) -> bool {
    let Some(Ok(folder)) = folder.map(|folder| folder.metadata()) else {
        return false;
    };
    let Ok(new) = new.metadata() else {
        return false;
    };
    let user = new.uid();
    folder.mode() & STICKY != 0 && user != ROOT && user != old.uid() && user != folder.uid()
}

/// Gives a new file the group, the owner and the mode of the old one, as far as the system allows it. Without its group it gives nothing to another.
pub(crate) fn take_over(new: &File, old: &Metadata) {
    let mut mode = old.mode() & PERMISSIONS;
    // The group first: who gives a file away may not set it any more.
    if fchown(new, None, Some(old.gid())).is_err() {
        mode &= !GROUP;
    }
    // An ordinary user can't give a file away, and some file systems have no owners and no permissions.
    let _ = fchown(new, Some(old.uid()), None);
    let _ = new.set_permissions(Permissions::from_mode(mode));
}
