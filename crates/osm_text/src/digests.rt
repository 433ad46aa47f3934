//! Digests of files as they are printed.

ghost use Rattle.std.specs.Prelude.{◌≡◌, ◌++◌, OnOk};
ghost use Rattle.std.specs.List.{flat_map, list_any};
ghost use Rattle.osm_text.specs.Digests.{digest_line, hex_byte, is_escaped, path_byte};

use crate::quoted::hex_digit;
use std::alloc::AllocError;

/// Whether a path has a byte that has to be escaped.
fn has_escapes(path: &[u8]) -> bool
    ensures { result ≡ list_any is_escaped path.now }
{
    for byte in path {
        if *byte == b'\\' || *byte == b'\n' || *byte == b'\r' {
            return true;
        }
    }
    false
}

/// Appends bytes, each as two digits of base 16.
pub fn put_hex(out: &mut Vec<u8>, bytes: &[u8]) -> Result<(), AllocError>
    ensures { OnOk result (out.new.items ≡ out.old.items ++ flat_map hex_byte bytes.now) }
{
    for byte in bytes {
        out.extend_from_slice(&[hex_digit(*byte / 16), hex_digit(*byte % 16)])?;
    }
    Ok(())
}

/// Appends one byte of a path.
fn put_path_byte(out: &mut Vec<u8>, byte: u8) -> Result<(), AllocError>
    ensures { OnOk result (out.new.items ≡ out.old.items ++ path_byte byte) }
{
    match byte {
        b'\\' => out.extend_from_slice(b"\\\\")?,
        b'\n' => out.extend_from_slice(b"\\n")?,
        b'\r' => out.extend_from_slice(b"\\r")?,
        _ => out.push(byte)?,
    }
    Ok(())
}

/// Appends a path.
fn put_path(out: &mut Vec<u8>, path: &[u8]) -> Result<(), AllocError>
    ensures { OnOk result (out.new.items ≡ out.old.items ++ flat_map path_byte path.now) }
{
    for byte in path {
        put_path_byte(out, *byte)?;
    }
    Ok(())
}

/// Appends the line of a file and its digest as `sha256sum` prints it and `sha256sum -c` reads it: the digest in hexadecimal digits,
/// two spaces, the path, and a line feed. In the path a backslash is written as `\\`, a line feed as `\n` and a carriage return as
/// `\r`; a line with one of these begins with a backslash.
///
/// An `Err` says that memory is refused; the output is then unspecified.
pub fn put_digest_line(out: &mut Vec<u8>, digest: &[u8], path: &[u8]) -> Result<(), AllocError>
    ensures { OnOk result (out.new.items ≡ out.old.items ++ digest_line digest.now path.now) }
{
    if has_escapes(path) {
        out.push(b'\\')?;
    }
    put_hex(out, digest)?;
    out.extend_from_slice(b"  ")?;
    put_path(out, path)?;
    out.push(b'\n')?;
    Ok(())
}
