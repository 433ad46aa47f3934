//! A case's file through a call, however it is cut; and what was written, once more.

use crate::list::Row;
use crate::run::{Call, Pass, run};
use crate::trouble::{Trouble, expect};
use pbf_frame::Sink;
use std::alloc::Global;

/// The lengths of the pieces of small files, and of large ones.
const PIECES: [usize; 2] = [1, 7];

const LARGE_PIECES: [usize; 1] = [65_521];

/// Files of at most so many bytes are small here.
const SMALL: usize = 100_000;

/// Makes the call over the input in pieces of these lengths, and compares what it returns and writes.
fn answers(
    alloc: Global,
    row: &Row<'_>,
    call: Call,
    input: &[u8],
    lengths: &[usize],
    wanted: &[u8],
) -> Result<(), Trouble> {
    let pass = Pass {
        lengths,
        ..Pass::whole(input)
    };
    let mut sink = Sink::new(alloc, wanted.len().saturating_add(64), 0)?;
    let outcome = run(alloc, call, row.area, &[pass; 4], &mut sink);
    expect(row.is_answer(call, outcome), "another answer")?;
    expect(sink.bytes() == wanted, "other bytes are written")
}

/// Makes the call over the case's file, whole and in pieces, and over what the call should write, which gives the same bytes.
pub(crate) fn holds(
    alloc: Global,
    row: &Row<'_>,
    call: Call,
    input: &[u8],
    wanted: &[u8],
) -> Result<(), Trouble> {
    answers(alloc, row, call, input, &[], wanted)?;
    if input.len() <= SMALL {
        for length in PIECES {
            answers(alloc, row, call, input, &[length], wanted)?;
        }
    } else if let Call::Extract = call {
        answers(alloc, row, call, input, &LARGE_PIECES, wanted)?;
    }
    if row.file(call).is_some() && input.len() <= SMALL {
        answers(alloc, row, call, wanted, &[], wanted)?;
    }
    Ok(())
}
