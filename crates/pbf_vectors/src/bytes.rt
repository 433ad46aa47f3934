//! The bytes of a case's files.

use crate::trouble::Trouble;
use std::alloc::Global;
use std::fs;

/// The bytes of a word in hex.
fn of_hex(alloc: Global, word: &str) -> Result<Vec<u8>, Trouble> {
    let mut bytes = Vec::new(alloc);
    let mut high = None;
    for digit in word.bytes() {
        let value = match digit {
            b'0'..=b'9' => digit.wrapping_sub(b'0'),
            b'a'..=b'f' => digit.wrapping_sub(b'a').wrapping_add(10),
            _ => return Err(Trouble::List),
        };
        high = match high {
            None => Some(value),
            Some(upper) => {
                bytes.push((upper << 4_u32) | value)?;
                None
            }
        };
    }
    Ok(bytes)
}

/// Adds a piece that is spelled as its unit in hex, `x`, and how often it is repeated.
fn add_piece(alloc: Global, bytes: &mut Vec<u8>, piece: &str) -> Result<(), Trouble> {
    let mut halves = piece.split('x');
    let (Some(unit), Some(times)) = (halves.next(), halves.next()) else {
        return Err(Trouble::List);
    };
    let unit = of_hex(alloc, unit)?;
    let Ok(times) = times.parse::<u32>() else {
        return Err(Trouble::List);
    };
    for _ in 0..times {
        bytes.extend_from_slice(&unit)?;
    }
    Ok(())
}

/// The bytes of a file of the case of this name: of the file itself, or as the word spells them after its `*`.
pub(crate) fn loaded(rt: &HostRuntime, name: &str, file: &str) -> Result<Vec<u8>, Trouble> {
    if let Some(pieces) = file.strip_prefix('*') {
        let mut bytes = Vec::new(rt.alloc());
        for piece in pieces.split('+') {
            add_piece(rt.alloc(), &mut bytes, piece)?;
        }
        return Ok(bytes);
    }
    let path = format!(in rt.alloc(); "{name}/{file}")?;
    let Ok(bytes) = fs::read(rt, path.as_str()) else {
        return Err(Trouble::File);
    };
    Ok(bytes)
}
