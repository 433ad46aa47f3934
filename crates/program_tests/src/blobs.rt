//! What no clause says: the format's own examples through `list_blobs`, and devices that fail.

use pbf_frame::{Pieces, Sink, Stop};
use pbf_wire::{Fault, Reason};
use pbfcut::list_blobs;
use std::alloc::{AllocError, Global};
use std::process::Abort;
use std::test::Fail;

/// An `OSMHeader` with an empty payload.
pub(crate) const HEADER_ALONE: [u8; 19] = [
    0x00, 0x00, 0x00, 0x0d, 0x0a, 0x09, b'O', b'S', b'M', b'H', b'e', b'a', b'd', b'e', b'r', 0x18,
    0x02, 0x0a, 0x00,
];

/// The same and then the dense nodes 10, 11 and 15.
pub(crate) const THREE_DENSE_NODES: [u8; 59] = [
    0x00, 0x00, 0x00, 0x0d, 0x0a, 0x09, b'O', b'S', b'M', b'H', b'e', b'a', b'd', b'e', b'r', 0x18,
    0x02, 0x0a, 0x00, 0x00, 0x00, 0x00, 0x0b, 0x0a, 0x07, b'O', b'S', b'M', b'D', b'a', b't', b'a',
    0x18, 0x19, 0x0a, 0x17, 0x0a, 0x02, 0x0a, 0x00, 0x12, 0x11, 0x12, 0x0f, 0x0a, 0x03, 0x14, 0x02,
    0x08, 0x42, 0x03, 0x02, 0x03, 0x04, 0x4a, 0x03, 0x02, 0x00, 0x00,
];

const TWO_LINES: &str = "0 OSMHeader 2 0\n19 OSMData 25 23\n";

fn refused(offset: u64, reason: Reason) -> Result<u64, Stop> {
    Err(Stop::Refused(Fault { offset, reason }))
}

/// Whether the input, in pieces of these lengths, is listed so and ends so.
fn lists_as(
    alloc: Global,
    input: &[u8],
    lengths: &[usize],
    text: &str,
    outcome: Result<u64, Stop>,
) -> Result<bool, AllocError> {
    let mut feed = Pieces::new(input, lengths, None);
    let mut sink = Sink::new(alloc, 4_096, 0)?;
    let listed = list_blobs(alloc, &mut feed, &mut sink);
    Ok(listed == outcome && sink.bytes() == text.as_bytes())
}

/// Whether it is listed so whole, one byte a read and in pieces of seven.
fn lists_in_each_way(
    alloc: Global,
    input: &[u8],
    text: &str,
    outcome: Result<u64, Stop>,
) -> Result<bool, AllocError> {
    let whole = lists_as(alloc, input, &[], text, outcome)?;
    let bytewise = lists_as(alloc, input, &[1], text, outcome)?;
    let in_sevens = lists_as(alloc, input, &[7], text, outcome)?;
    Ok(whole && bytewise && in_sevens)
}

fn lists(
    rt: &(impl Abort + AllocGlobal),
    input: &[u8],
    text: &str,
    outcome: Result<u64, Stop>,
) -> Result<(), Fail> {
    assert!(rt;
        lists_in_each_way(rt.alloc(), input, text, outcome)?,
        "{text}"
    );
    Ok(())
}

#[test]
fn files_without_a_fault(rt: HostRuntime) -> Result<(), Fail> {
    lists(&rt, &HEADER_ALONE, "0 OSMHeader 2 0\n", Ok(1))?;
    lists(&rt, &THREE_DENSE_NODES, TWO_LINES, Ok(2))?;
    // The blob's size in two bytes.
    let long_size = [
        0x00, 0x00, 0x00, 0x0e, 0x0a, 0x09, b'O', b'S', b'M', b'H', b'e', b'a', b'd', b'e', b'r',
        0x18, 0x82, 0x00, 0x0a, 0x00,
    ];
    lists(&rt, &long_size, "0 OSMHeader 2 0\n", Ok(1))?;
    // The size before the type.
    let size_first = [
        0x00, 0x00, 0x00, 0x0d, 0x18, 0x02, 0x0a, 0x09, b'O', b'S', b'M', b'H', b'e', b'a', b'd',
        b'e', b'r', 0x0a, 0x00,
    ];
    lists(&rt, &size_first, "0 OSMHeader 2 0\n", Ok(1))
}

#[test]
fn from_a_slice_into_a_vector(rt: HostRuntime) -> Result<(), Fail> {
    let mut input: &[u8] = &THREE_DENSE_NODES;
    let mut output = Vec::new(rt.alloc());
    let listed = list_blobs(rt.alloc(), &mut input, &mut output);
    assert_eq!(rt; listed, Ok(2));
    assert_eq!(rt; output.as_slice(), TWO_LINES.as_bytes());
    Ok(())
}

#[test]
fn empty_file(rt: HostRuntime) -> Result<(), Fail> {
    lists(&rt, &[], "", refused(0, Reason::NoHeader))
}

#[test]
fn unknown_blob_alone(rt: HostRuntime) -> Result<(), Fail> {
    let unknown = [0, 0, 0, 7, 0x0a, 0x03, b'F', b'o', b'o', 0x18, 0x00];
    lists(
        &rt,
        &unknown,
        "0 \"Foo\" 0 skipped\n",
        refused(11, Reason::NoHeader),
    )
}

#[test]
fn a_quoted_type(rt: HostRuntime) -> Result<(), Fail> {
    // A quotation mark, a backslash, a line end, the byte 7f and an umlaut in UTF-8.
    let text = [
        0, 0, 0, 10, 0x0a, 0x06, b'"', b'\\', b'\n', 0x7f, 0xc3, 0xbc, 0x18, 0x00,
    ];
    let line = "0 \"\\\"\\\\\\x0a\\x7fü\" 0 skipped\n";
    lists(&rt, &text, line, refused(14, Reason::NoHeader))?;
    // A byte that makes it no UTF-8.
    let bytes = [0, 0, 0, 7, 0x0a, 0x03, 0xc3, 0xbc, 0xff, 0x18, 0x00];
    lists(
        &rt,
        &bytes,
        "0 \"\\xc3\\xbc\\xff\" 0 skipped\n",
        refused(11, Reason::NoHeader),
    )
}

#[test]
fn a_second_header(rt: HostRuntime) -> Result<(), Fail> {
    let mut twice = Vec::from_slice(rt.alloc(), &HEADER_ALONE)?;
    twice.extend_from_slice(&HEADER_ALONE)?;
    lists(
        &rt,
        &twice,
        "0 OSMHeader 2 0\n",
        refused(19, Reason::SecondHeader),
    )
}

#[test]
fn a_file_cut_after_each_byte(rt: HostRuntime) -> Result<(), Fail> {
    let first = "0 OSMHeader 2 0\n";
    for length in 0..THREE_DENSE_NODES.len() {
        let (text, outcome) = match length {
            0 => ("", refused(0, Reason::NoHeader)),
            1..=3 => ("", refused(0, Reason::PrefixCut)),
            4..=16 => ("", refused(0, Reason::HeaderCut)),
            17 | 18 => ("", refused(17, Reason::BlobCut)),
            19 => (first, Ok(1)),
            20..=22 => (first, refused(19, Reason::PrefixCut)),
            23..=33 => (first, refused(19, Reason::HeaderCut)),
            _ => (first, refused(34, Reason::BlobCut)),
        };
        lists(&rt, &THREE_DENSE_NODES[..length], text, outcome)?;
    }
    Ok(())
}

/// Whether the three nodes are listed into a drain of so much room, which takes so many bytes a write, so that this is taken.
fn fills(
    alloc: Global,
    room: usize,
    most: usize,
    taken: &[u8],
    outcome: Result<u64, Stop>,
) -> Result<bool, AllocError> {
    let mut feed = Pieces::new(&THREE_DENSE_NODES, &[], None);
    let mut sink = Sink::new(alloc, room, most)?;
    let listed = list_blobs(alloc, &mut feed, &mut sink);
    Ok(listed == outcome && sink.bytes() == taken)
}

#[test]
fn a_drain_that_fails_after_each_byte(rt: HostRuntime) -> Result<(), Fail> {
    let text = TWO_LINES.as_bytes();
    for room in 0..text.len() {
        assert!(rt;
            fills(rt.alloc(), room, 0, &text[..room], Err(Stop::Write))?,
            "{room}"
        );
    }
    assert!(rt; fills(rt.alloc(), 100, 1, text, Ok(2))?);
    Ok(())
}

/// How the list of the three nodes ends if this read fails, and whether a prefix of it was written.
fn ends_where_read_fails(
    alloc: Global,
    call: u64,
) -> Result<(Result<u64, Stop>, bool), AllocError> {
    let mut feed = Pieces::new(&THREE_DENSE_NODES, &[7], Some(call));
    let mut sink = Sink::new(alloc, 100, 0)?;
    let listed = list_blobs(alloc, &mut feed, &mut sink);
    Ok((listed, TWO_LINES.as_bytes().starts_with(sink.bytes())))
}

#[test]
fn each_read_failing_in_turn(rt: HostRuntime) -> Result<(), Fail> {
    let mut failed = 0;
    for call in 0..60 {
        let (listed, is_beginning) = ends_where_read_fails(rt.alloc(), call)?;
        assert!(rt;
            is_beginning && (listed == Ok(2) || listed == Err(Stop::Read)),
            "{call}"
        );
        if listed.is_err() {
            failed = call;
        }
    }
    // It takes nine reads of seven bytes at the least, and one that finds the end.
    assert!(rt; failed >= 9);
    Ok(())
}
