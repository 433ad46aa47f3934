//! Texts of a file as they are printed.

ghost use Rattle.std.specs.Prelude.{◌≡◌, ◌<◌, ◌++◌, OnOk};
ghost use Rattle.std.specs.Str.{is_utf8};
ghost use Rattle.osm_text.specs.Quoted.{hex_digit, json_string, quoted, quoted_by, quoted_byte};

use std::alloc::AllocError;

/// A digit of base 16, in lower case.
pub(crate) fn hex_digit(digit: u8) -> u8
    requires { digit < 16 }
    ensures { result ≡ hex_digit digit }
{
    if digit < 10 {
        b'0' + digit
    } else {
        b'a' + (digit - 10)
    }
}

/// Whether the bytes are UTF-8, as a whole.
fn is_utf8(bytes: &[u8]) -> bool
    ensures { result ≡ is_utf8 bytes.now }
{
    simdutf8::basic::from_utf8(bytes).is_ok()
}

/// Appends one byte of a text, after a backslash or by the mark and its digits if it has to be.
fn put_quoted_byte(
    out: &mut Vec<u8>,
    mark: &[u8],
    is_utf8: bool,
    byte: u8,
) -> Result<(), AllocError>
    ensures { OnOk result (out.new.items ≡ out.old.items ++ quoted_byte mark.now is_utf8 byte) }
{
    if byte == b'"' || byte == b'\\' {
        out.extend_from_slice(&[b'\\', byte])?;
    } else if byte < 32 || byte == 127 || (byte >= 128 && !is_utf8) {
        out.extend_from_slice(mark)?;
        out.extend_from_slice(&[hex_digit(byte / 16), hex_digit(byte % 16)])?;
    } else {
        out.push(byte)?;
    }
    Ok(())
}

/// Appends a text between quotation marks, with a mark before the digits of a byte that has no form.
///
/// `show` does this for each text of a file. Inlined, it has the mark as a constant.
#[inline(always)]
fn put_quoted_by(out: &mut Vec<u8>, mark: &[u8], text: &[u8]) -> Result<(), AllocError>
    ensures { OnOk result (out.new.items ≡ out.old.items ++ quoted_by mark.now text.now) }
{
    let is_utf8 = is_utf8(text);
    out.push(b'"')?;
    for byte in text {
        put_quoted_byte(out, mark, is_utf8, *byte)?;
    }
    out.push(b'"')?;
    Ok(())
}

/// Appends a text between quotation marks. A backslash comes before a quotation mark and a backslash; a byte below 32, the
/// byte 127 and, if the text as a whole is not UTF-8, each byte from 128 on are written as `\x` and two hexadecimal
/// digits.
///
/// An `Err` says that memory is refused; the output then is unspecified.
pub fn put_quoted(out: &mut Vec<u8>, text: &[u8]) -> Result<(), AllocError>
    ensures { OnOk result (out.new.items ≡ out.old.items ++ quoted text.now) }
{
    put_quoted_by(out, b"\\x", text)
}

/// Appends a text as a string of JSON. It differs from `put_quoted` in a byte that is written by its digits: these come after `\u00`. So
/// a text that is not UTF-8 is read as Latin-1.
///
/// An `Err` says that memory is refused; the output then is unspecified.
pub(crate) fn put_json_string(out: &mut Vec<u8>, text: &[u8]) -> Result<(), AllocError>
    ensures { OnOk result (out.new.items ≡ out.old.items ++ json_string text.now) }
{
    put_quoted_by(out, b"\\u00", text)
}
