//! The text of the file of a polygon.

use std::fs;
use std::io::{self, ErrorKind};

/// The characters of Latin-1 that these bytes are: each byte is the number of its character.
fn from_latin_1(rt: &HostRuntime, bytes: &[u8]) -> io::Result<String> {
    let mut text = String::new(rt.alloc());
    for byte in bytes {
        text.push(char::from(*byte))?;
    }
    Ok(text)
}

/// Whether something is there that is no plain file: a folder, a pipe or a device.
pub(crate) fn is_no_file(rt: &HostRuntime, path: &str) -> bool {
    match fs::metadata(rt, path) {
        Ok(metadata) => !metadata.is_file(),
        Err(_) => false,
    }
}

/// Reads the text of a plain file. Bytes that aren't UTF-8 are read as Latin-1: some `.poly` files have names so, and no other part of such a
/// file has more than ASCII. A pipe or a device isn't opened, since it may never end.
pub fn read_polygon_text(rt: &HostRuntime, path: &str) -> io::Result<String> {
    if is_no_file(rt, path) {
        return Err(ErrorKind::InvalidInput.into());
    }
    match String::from_utf8(fs::read(rt, path)?) {
        Ok(text) => Ok(text),
        Err(error) => from_latin_1(rt, error.as_bytes()),
    }
}
