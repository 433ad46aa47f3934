//! What no clause of `show` says: the format's own examples, feeds that differ, and devices that fail. Texts, numbers and times as they
//! are printed are cases of `vectors/`, over which `vectors/run.py pbfcut` runs the built program, with and without dates.

use crate::blobs::{HEADER_ALONE, THREE_DENSE_NODES};
use crate::check::counts;
use osm_entity::{EntityRef, MetaRef, NodeRef, Scale, Tags};
use pbf_frame::{Pieces, Sink, Stop};
use pbf_wire::{Fault, Reason};
use pbfcut::{Counts, show};
use std::alloc::{AllocError, Global};
use std::process::Abort;
use std::test::Fail;

pub(crate) const THREE_LINES: &str = "N 10 100 100\nN 11 -100 100\nN 15 100 100\n";

/// A dense node with an empty key; the value's one byte is at 42.
const EMPTY_KEY: [u8; 72] = [
    0x00, 0x00, 0x00, 0x0d, 0x0a, 0x09, 0x4f, 0x53, 0x4d, 0x48, 0x65, 0x61, 0x64, 0x65, 0x72, 0x18,
    0x02, 0x0a, 0x00, 0x00, 0x00, 0x00, 0x0b, 0x0a, 0x07, 0x4f, 0x53, 0x4d, 0x44, 0x61, 0x74, 0x61,
    0x18, 0x26, 0x0a, 0x24, 0x0a, 0x10, 0x0a, 0x00, 0x0a, 0x01, 0x61, 0x0a, 0x01, 0x62, 0x0a, 0x01,
    0x63, 0x0a, 0x01, 0x64, 0x0a, 0x00, 0x12, 0x10, 0x12, 0x0e, 0x0a, 0x01, 0x02, 0x42, 0x01, 0x02,
    0x4a, 0x01, 0x02, 0x52, 0x03, 0x05, 0x01, 0x00,
];

/// Whether the input, in pieces of these lengths, is shown so and ends so.
fn shows_as(
    alloc: Global,
    input: &[u8],
    lengths: &[usize],
    text: &str,
    outcome: Result<Counts, Stop>,
) -> Result<bool, AllocError> {
    let mut first = Pieces::new(input, lengths, None);
    let mut second = Pieces::new(input, lengths, None);
    let mut sink = Sink::new(alloc, 4_096, 0)?;
    let shown = show(alloc, &mut first, &mut second, &mut sink, false);
    Ok(shown == outcome && sink.bytes() == text.as_bytes())
}

/// Whether it is shown so whole, one byte a read and in pieces of seven.
fn shows_in_each_way(
    alloc: Global,
    input: &[u8],
    text: &str,
    outcome: Result<Counts, Stop>,
) -> Result<bool, AllocError> {
    let whole = shows_as(alloc, input, &[], text, outcome)?;
    let bytewise = shows_as(alloc, input, &[1], text, outcome)?;
    let in_sevens = shows_as(alloc, input, &[7], text, outcome)?;
    Ok(whole && bytewise && in_sevens)
}

fn shows(
    rt: &(impl Abort + AllocGlobal),
    input: &[u8],
    text: &str,
    outcome: Result<Counts, Stop>,
) -> Result<(), Fail> {
    assert!(rt;
        shows_in_each_way(rt.alloc(), input, text, outcome)?,
        "{text}"
    );
    Ok(())
}

#[test]
fn header_alone(rt: HostRuntime) -> Result<(), Fail> {
    shows(&rt, &HEADER_ALONE, "", counts(0, 0, 0))
}

#[test]
fn three_dense_nodes(rt: HostRuntime) -> Result<(), Fail> {
    shows(&rt, &THREE_DENSE_NODES, THREE_LINES, counts(3, 0, 0))
}

/// Nothing is written of a file that has a fault, though the frames before it have none.
#[test]
fn a_file_cut_after_each_byte(rt: HostRuntime) -> Result<(), Fail> {
    for length in 20..THREE_DENSE_NODES.len() {
        let (offset, reason) = match length {
            20..=22 => (19, Reason::PrefixCut),
            23..=33 => (19, Reason::HeaderCut),
            _ => (34, Reason::BlobCut),
        };
        let refused = Err(Stop::Refused(Fault { offset, reason }));
        shows(&rt, &THREE_DENSE_NODES[..length], "", refused)?;
    }
    Ok(())
}

/// Whether a file that differs so between the passes is found to have changed.
fn changes(alloc: Global, first: &[u8], second: &[u8]) -> Result<bool, AllocError> {
    let mut one = Pieces::new(first, &[], None);
    let mut other = Pieces::new(second, &[], None);
    let mut sink = Sink::new(alloc, 4_096, 0)?;
    let shown = show(alloc, &mut one, &mut other, &mut sink, false);
    Ok(shown == Err(Stop::Changed(2)))
}

#[test]
fn another_byte_in_pass_2(rt: HostRuntime) -> Result<(), Fail> {
    let mut changed = EMPTY_KEY;
    assert_eq!(rt; changed[42], b'a');
    changed[42] = b'b';
    assert!(rt; changes(rt.alloc(), &EMPTY_KEY, &changed)?);
    Ok(())
}

#[test]
fn a_fault_in_pass_2(rt: HostRuntime) -> Result<(), Fail> {
    for length in 0..THREE_DENSE_NODES.len() {
        assert!(rt;
            changes(rt.alloc(), &THREE_DENSE_NODES, &THREE_DENSE_NODES[..length])?,
            "{length}"
        );
    }
    Ok(())
}

/// Whether a drain of so much room takes so much of the three lines, and then no more.
fn fills(alloc: Global, room: usize) -> Result<bool, AllocError> {
    let mut first = Pieces::new(&THREE_DENSE_NODES, &[], None);
    let mut second = Pieces::new(&THREE_DENSE_NODES, &[], None);
    let mut sink = Sink::new(alloc, room, 0)?;
    let shown = show(alloc, &mut first, &mut second, &mut sink, false);
    Ok(shown == Err(Stop::Write) && Some(sink.bytes()) == THREE_LINES.as_bytes().get(..room))
}

#[test]
fn a_drain_that_fails_after_each_byte(rt: HostRuntime) -> Result<(), Fail> {
    for room in 0..THREE_LINES.len() {
        assert!(rt; fills(rt.alloc(), room)?, "{room}");
    }
    Ok(())
}

/// How `show` ends if these reads of the passes fail, and whether a prefix of the three lines was written: none, if nothing may be.
fn ends_where_reads_fail(
    alloc: Global,
    lengths: &[usize],
    failing: (Option<u64>, Option<u64>),
    may_write: bool,
) -> Result<(Result<Counts, Stop>, bool), AllocError> {
    let mut first = Pieces::new(&THREE_DENSE_NODES, lengths, failing.0);
    let mut second = Pieces::new(&THREE_DENSE_NODES, lengths, failing.1);
    let mut sink = Sink::new(alloc, 100, 0)?;
    let shown = show(alloc, &mut first, &mut second, &mut sink, false);
    let may_write = may_write || shown.is_ok();
    let is_beginning = THREE_LINES.as_bytes().starts_with(sink.bytes());
    Ok((
        shown,
        is_beginning && (may_write || sink.bytes().is_empty()),
    ))
}

/// Each read of one of the passes fails in turn; returns the number of the last read that there is.
fn reads_fail(
    rt: &(impl Abort + AllocGlobal),
    lengths: &[usize],
    in_first: bool,
) -> Result<u64, Fail> {
    let mut failed = 0;
    for call in 0..90 {
        let failing = if in_first {
            (Some(call), None)
        } else {
            (None, Some(call))
        };
        let (shown, is_beginning) = ends_where_reads_fail(rt.alloc(), lengths, failing, !in_first)?;
        assert!(rt;
            is_beginning && (shown == counts(3, 0, 0) || shown == Err(Stop::Read)),
            "{call}"
        );
        if shown.is_err() {
            failed = call;
        }
    }
    Ok(failed)
}

#[test]
fn each_read_failing_in_turn(rt: HostRuntime) -> Result<(), Fail> {
    for in_first in [true, false] {
        // It takes nine reads of seven bytes at the least, and one that finds the end.
        assert!(rt; reads_fail(&rt, &[7], in_first)? >= 9);
        assert!(rt; reads_fail(&rt, &[1], in_first)? >= 59);
    }
    Ok(())
}

#[test]
fn counts_that_stay_at_the_greatest_number(rt: HostRuntime) {
    let mut met = Counts {
        nodes: u64::MAX,
        ways: u64::MAX - 1,
        relations: 7,
    };
    met.add(Counts {
        nodes: 1,
        ways: 2,
        relations: u64::MAX - 7,
    });
    let most = Counts {
        nodes: u64::MAX,
        ways: u64::MAX,
        relations: u64::MAX,
    };
    assert_eq!(rt; met, most);
    let meta = MetaRef {
        version: None,
        timestamp: None,
        changeset: None,
        uid: None,
        user: None,
        visible: None,
    };
    let scale = Scale {
        granularity: 100,
        date_granularity: 1_000,
        lat_offset: 0,
        lon_offset: 0,
    };
    let tags = Tags::Owned(&[]);
    met.take(&EntityRef::Node(NodeRef::new(1, 1, 1, meta, tags, scale)));
    assert_eq!(rt; met, most);
}
