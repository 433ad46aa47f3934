//! Files that are cut or changed at each byte: what is returned and what goes out are the same however the bytes are supplied.

use crate::list::Row;
use crate::run::{Call, Pass, run};
use crate::trouble::{Trouble, expect};
use pbf_frame::Sink;
use std::alloc::Global;

/// More than any changed file of the suite is written to.
const ROOM: usize = 8_192;

/// The lengths of the pieces.
const PIECES: [usize; 2] = [1, 7];

/// What is changed of a byte: its lowest bit, its highest, and all.
const CHANGES: [u8; 3] = [0x01, 0x80, 0xff];

/// The call over the input, whole and in pieces, returns and writes the same.
fn is_same(alloc: Global, row: &Row<'_>, call: Call, input: &[u8]) -> Result<(), Trouble> {
    let whole = Pass::whole(input);
    let mut wanted = Sink::new(alloc, ROOM, 0)?;
    let answer = run(alloc, call, row.area, &[whole; 4], &mut wanted);
    for length in PIECES {
        let pass = Pass {
            lengths: &[length],
            ..whole
        };
        let mut sink = Sink::new(alloc, ROOM, 0)?;
        let outcome = run(alloc, call, row.area, &[pass; 4], &mut sink);
        expect(outcome == answer, "another answer in pieces")?;
        expect(sink.bytes() == wanted.bytes(), "other bytes in pieces")?;
    }
    Ok(())
}

/// The same of the case's file, cut at each byte, and with each byte changed.
pub(crate) fn same_however_supplied(
    alloc: Global,
    row: &Row<'_>,
    call: Call,
    input: &[u8],
) -> Result<(), Trouble> {
    let mut changed = Vec::new(alloc);
    changed.extend_from_slice(input)?;
    for at in 0..input.len() {
        is_same(alloc, row, call, input.get(..at).unwrap_or(input))?;
        for bits in CHANGES {
            let Some(byte) = changed.get_mut(at) else {
                return Ok(());
            };
            *byte ^= bits;
            is_same(alloc, row, call, &changed)?;
            if let Some(byte) = changed.get_mut(at) {
                *byte ^= bits;
            }
        }
    }
    Ok(())
}
