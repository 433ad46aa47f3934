//! Devices that fail, and passes that are supplied with other bytes than the first.

use crate::list::Row;
use crate::run::{Call, Pass, run};
use crate::trouble::{Trouble, expect};
use pbf_frame::{Sink, Stop};
use std::alloc::Global;

/// The length of the pieces in which a read fails.
const PIECE: usize = 7;

/// More reads than any file of the suite takes in pieces of this length.
const MOST_READS: u64 = 100_000;

/// Read `failing` of the pass of this index fails, if there are so many reads; returns whether it did.
fn read_fails(
    alloc: Global,
    row: &Row<'_>,
    call: Call,
    pass: usize,
    failing: u64,
    input: &[u8],
    wanted: &[u8],
) -> Result<bool, Trouble> {
    let supplied = Pass {
        lengths: &[PIECE],
        ..Pass::whole(input)
    };
    let failed = Pass {
        failing_call: Some(failing),
        ..supplied
    };
    let mut passes = [supplied; 4];
    if let Some(place) = passes.get_mut(pass) {
        *place = failed;
    }
    let mut sink = Sink::new(alloc, wanted.len().saturating_add(64), 0)?;
    let outcome = run(alloc, call, row.area, &passes, &mut sink);
    expect(
        wanted.starts_with(sink.bytes()),
        "what went out is no beginning",
    )?;
    if row.is_answer(call, outcome) {
        expect(sink.bytes() == wanted, "not all went out")?;
        return Ok(false);
    }
    expect(
        outcome == Err(Stop::Read),
        "a read failed, and another answer came",
    )?;
    let is_last = pass.saturating_add(1) == usize::from(call.passes());
    expect(
        is_last || sink.bytes().is_empty(),
        "written before the last pass",
    )?;
    Ok(true)
}

/// The reads of each pass fail in turn, until there are no more.
pub(crate) fn each_read_fails(
    alloc: Global,
    row: &Row<'_>,
    call: Call,
    input: &[u8],
    wanted: &[u8],
) -> Result<(), Trouble> {
    for pass in 0..usize::from(call.passes()) {
        for failing in 0..MOST_READS {
            if !read_fails(alloc, row, call, pass, failing, input, wanted)? {
                break;
            }
        }
    }
    Ok(())
}

/// What should come out, cut by a drain that fails after each byte, and through one that takes a byte a write.
pub(crate) fn each_write_fails(
    alloc: Global,
    row: &Row<'_>,
    call: Call,
    input: &[u8],
    wanted: &[u8],
) -> Result<(), Trouble> {
    let passes = [Pass::whole(input); 4];
    for room in 0..wanted.len() {
        let mut sink = Sink::new(alloc, room, 0)?;
        let outcome = run(alloc, call, row.area, &passes, &mut sink);
        expect(
            outcome == Err(Stop::Write),
            "a write failed, and another answer came",
        )?;
        expect(
            sink.bytes().len() == room && wanted.starts_with(sink.bytes()),
            "what went out is no beginning",
        )?;
    }
    let mut sink = Sink::new(alloc, wanted.len().saturating_add(64), 1)?;
    let outcome = run(alloc, call, row.area, &passes, &mut sink);
    expect(
        row.is_answer(call, outcome),
        "another answer by a byte a write",
    )?;
    expect(sink.bytes() == wanted, "other bytes by a byte a write")
}

/// The pass of this number, and no other, is supplied with the changed bytes: the call says so, and writes nothing if that
/// pass isn't the last.
fn pass_changes(
    alloc: Global,
    row: &Row<'_>,
    call: Call,
    number: u8,
    input: &[u8],
    changed: &[u8],
) -> Result<(), Trouble> {
    let same = Pass::whole(input);
    let other = Pass::whole(changed);
    let passes = match number {
        2 => [same, other, same, same],
        3 => [same, same, other, same],
        _ => [same, same, same, other],
    };
    let mut sink = Sink::new(alloc, input.len().saturating_add(4_096), 0)?;
    let outcome = run(alloc, call, row.area, &passes, &mut sink);
    expect(
        outcome == Err(Stop::Changed(number)),
        "a pass had other bytes, and another answer came",
    )?;
    expect(
        number == call.passes() || sink.bytes().is_empty(),
        "written before the last pass",
    )
}

/// Each later pass of a file that is written lacks its last byte, has another last byte, or has a byte more.
pub(crate) fn each_pass_changes(
    alloc: Global,
    row: &Row<'_>,
    call: Call,
    input: &[u8],
) -> Result<(), Trouble> {
    let Some((last, shorter)) = input.split_last() else {
        return Ok(());
    };
    if row.file(call).is_none() {
        return Ok(());
    }
    let mut longer = Vec::new(alloc);
    longer.extend_from_slice(input)?;
    longer.push(0)?;
    let mut other = Vec::new(alloc);
    other.extend_from_slice(shorter)?;
    other.push(*last ^ 3)?;
    for number in 2..=call.passes() {
        pass_changes(alloc, row, call, number, input, shorter)?;
        pass_changes(alloc, row, call, number, input, &longer)?;
        pass_changes(alloc, row, call, number, input, &other)?;
    }
    Ok(())
}
