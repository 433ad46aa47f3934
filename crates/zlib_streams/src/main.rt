//! Reads or writes zlib streams, many of them in one run: `tests/inflate/fuzz.py`, `tests/inflate/pack.py` and `bench/inflate.py` call it.
//!
//! Standard input begins with `r` or `p` and a byte that says how often each stream is read or each input is packed. Then each comes as
//! four bytes with its length and four with a limit, the lowest first, and its bytes. For `r` a line says what the stream means, or its
//! fault. For `p` the limit is the room for the stream; four bytes with the stream's length are written, or zeros if it does not fit,
//! and then the stream.
#![tactic(auto)]

use deflate::Deflater;
use std::io::{self, Read, Write};
use zlib::{Inflater, adler32};

/// The highest limit: an item with a higher one ends the input.
const HIGHEST_LIMIT: usize = 1 << 28;

/// A number of four bytes, and the bytes after it.
fn split_number(bytes: &[u8]) -> Option<(usize, &[u8])> {
    let (four, rest) = bytes.split_first_chunk::<4>()?;
    Some((u32::from_le_bytes(*four) as usize, rest))
}

/// The bytes of the first item, its limit, and what comes after it.
fn split_item(bytes: &[u8]) -> Option<(&[u8], usize, &[u8])> {
    let (length, after) = split_number(bytes)?;
    let (limit, after) = split_number(after)?;
    if length > after.len() || limit > HIGHEST_LIMIT {
        return None;
    }
    Some((&after[..length], limit, &after[length..]))
}

/// Prints what each stream means.
fn read_all(rt: &HostRuntime, rounds: u8, items: &[u8]) -> io::Result<()> {
    let Ok(mut inflater) = Inflater::new(rt.alloc()) else {
        return println!(rt; "Memory");
    };
    let mut out = Vec::new(rt.alloc());
    let mut rest = items;
    for _ in 0..u64::MAX {
        let Some((stream, limit, after)) = split_item(rest) else {
            break;
        };
        out.clear();
        out.resize(limit, 0)?;
        for round in 0..rounds {
            let outcome = inflater.inflate_into(stream, &mut out);
            if round == 0 {
                match outcome {
                    Ok(place) => println!(rt; "{place} {}", adler32(&out[..place]))?,
                    Err(fault) => println!(rt; "{fault:?}")?,
                }
            }
        }
        rest = after;
    }
    Ok(())
}

/// Packs each input, and writes the streams.
fn pack_all(rt: &HostRuntime, rounds: u8, items: &[u8]) -> io::Result<()> {
    let mut deflater = Deflater::new(rt.alloc())?;
    let mut out = Vec::new(rt.alloc());
    let mut stdout = rt.stdout();
    let mut rest = items;
    for _ in 0..u64::MAX {
        let Some((input, limit, after)) = split_item(rest) else {
            break;
        };
        out.clear();
        out.resize(limit, 0)?;
        let mut size = 0;
        for _ in 0..rounds {
            size = deflater.deflate_into(input, &mut out).unwrap_or(0);
        }
        let size = size.min(out.len());
        stdout.write_all(&((size & 0xFFFF_FFFF) as u32).to_le_bytes())?;
        stdout.write_all(&out[..size])?;
        rest = after;
    }
    Ok(())
}

fn main(rt: HostRuntime) -> io::Result<()> {
    let mut input = Vec::new(rt.alloc());
    rt.stdin().read_to_end(&mut input)?;
    match input.as_slice() {
        [b'r', rounds, items @ ..] => read_all(&rt, *rounds, items),
        [b'p', rounds, items @ ..] => pack_all(&rt, *rounds, items),
        _ => Ok(()),
    }
}
