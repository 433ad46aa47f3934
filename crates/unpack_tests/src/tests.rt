//! What no clause says: that the calls succeed if there is memory, on blobs that Python's zlib packed, and from which place a byte comes.
//!
//! That a failed allocation is reported as `Memory` is tried by hand, by `rt try --test --fail-alloc N`.

use pbf_frame::{Feed, Pieces, Stop};
use pbf_unpack::{Inflater, Place, UnpackFault, UnpackReason, UnpackedFeed};
use std::alloc::Global;
use std::test::Fail;
use zlib::InflateFault;

/// A header, and a data frame with three dense nodes at byte 29, by zlib 1.2.13 at levels 6 and 9. The zlib data of the second is at byte 46.
const PACKED: [u8; 79] =
    *b"\x00\x00\x00\x0d\x0a\x09OSMHeader\x18\x0c\x10\x00\x1a\x08x\x9c\x03\x00\x00\x00\x00\x01\x00\x00\x00\x0b\x0a\x07OSMData\x18#\x10\x17\x1a\x1fx\xda\xe3b\xe2b\x10\x12\x14\xe2\xe7b\x16a\xe2pbfbf\xf1bfb`\x00\x00\x0dI\x01#";

/// The same raw; the data frame is at byte 19, and its payload at byte 36.
const RAW: [u8; 59] =
    *b"\x00\x00\x00\x0d\x0a\x09OSMHeader\x18\x02\x0a\x00\x00\x00\x00\x0b\x0a\x07OSMData\x18\x19\x0a\x17\x0a\x02\x0a\x00\x12\x11\x12\x0f\x0a\x03\x14\x02\x08B\x03\x02\x03\x04J\x03\x02\x00\x00";

/// How long the header frame is in each.
const PACKED_HEADER: usize = 29;

const RAW_HEADER: usize = 19;

/// What a feed supplied, and what it says of itself then.
#[derive(Debug, Drop, PartialEq, Eq)]
struct Run {
    bytes: Vec<u8>,
    fault: Option<UnpackFault>,
    stop: Option<Stop>,
    all: bool,
    place: Place,
}

/// Reads up to so many pieces of at most seven bytes, until there are no more, and finds where a byte comes from.
fn read_all<F: Feed + Drop>(
    alloc: Global,
    feed: F,
    pieces: usize,
    offset: u64,
) -> Result<Run, Stop> {
    let mut feed = UnpackedFeed::new(alloc, Inflater::new(alloc)?, feed);
    let mut bytes = Vec::new(alloc);
    for _ in 0..pieces {
        let mut buf = [0; 7];
        match feed.read(&mut buf) {
            Ok(0) | Err(_) => break,
            Ok(count) => bytes.extend_from_slice(&buf[..count])?,
        }
    }
    Ok(Run {
        bytes,
        fault: feed.fault(),
        stop: feed.stop(),
        all: feed.has_given_all(),
        place: feed.place_of(offset),
    })
}

/// Whether all of a file was read, and these are the raw bytes and the fault that it means.
fn means(run: &Run, front: &[u8], rest: &[u8], fault: Option<UnpackFault>) -> bool {
    run.bytes.starts_with(front)
        && run.bytes.ends_with(rest)
        && run.bytes.len() == front.len().saturating_add(rest.len())
        && run.fault == fault
        && run.stop.is_none()
        && run.all
}

/// The fault of the zlib data of the data frame.
const fn at_data(reason: UnpackReason) -> Option<UnpackFault> {
    Some(UnpackFault { offset: 46, reason })
}

#[test]
fn both_frames_are_unpacked(rt: HostRuntime) -> Result<(), Fail> {
    let run = read_all(rt.alloc(), PACKED.as_slice(), 100, 0)?;
    assert!(rt; means(&run, &RAW, &[], None));
    Ok(())
}

#[test]
fn however_the_feed_cuts_them(rt: HostRuntime) -> Result<(), Fail> {
    let run = read_all(
        rt.alloc(),
        Pieces::new(&PACKED, &[1, 3, 0, 2], None),
        100,
        0,
    )?;
    assert!(rt; means(&run, &RAW, &[], None));
    Ok(())
}

#[test]
fn raw_frames_stand_as_they_are(rt: HostRuntime) -> Result<(), Fail> {
    let run = read_all(rt.alloc(), RAW.as_slice(), 100, 0)?;
    assert!(rt; means(&run, &RAW, &[], None));
    Ok(())
}

#[test]
fn a_file_that_is_cut(rt: HostRuntime) -> Result<(), Fail> {
    let run = read_all(rt.alloc(), &PACKED[..78], 100, 0)?;
    assert!(rt; means(&run, &RAW[..RAW_HEADER], &PACKED[PACKED_HEADER..78], None));
    Ok(())
}

#[test]
fn what_is_no_pbf_file_is_passed_on(rt: HostRuntime) -> Result<(), Fail> {
    let text = b"<?xml version='1.0' encoding='UTF-8'?>".as_slice();
    let run = read_all(rt.alloc(), text, 100, 0)?;
    assert!(rt; means(&run, text, &[], None));
    Ok(())
}

#[test]
fn a_wrong_checksum(rt: HostRuntime) -> Result<(), Fail> {
    let mut file = PACKED;
    file[78] = 0x24;
    let run = read_all(rt.alloc(), file.as_slice(), 100, 0)?;
    let fault = at_data(UnpackReason::Inflate(InflateFault::Checksum));
    assert!(rt; means(&run, &RAW[..RAW_HEADER], &file[PACKED_HEADER..], fault));
    Ok(())
}

#[test]
fn a_raw_size_that_is_not_the_length(rt: HostRuntime) -> Result<(), Fail> {
    let mut file = PACKED;
    file[45] = 0x18;
    let run = read_all(rt.alloc(), file.as_slice(), 100, 0)?;
    let fault = at_data(UnpackReason::RawSize);
    assert!(rt; means(&run, &RAW[..RAW_HEADER], &file[PACKED_HEADER..], fault));
    Ok(())
}

#[test]
fn a_raw_size_that_is_too_small_for_a_fault(rt: HostRuntime) -> Result<(), Fail> {
    let mut file = PACKED;
    file[45] = 0;
    file[78] = 0x24;
    let run = read_all(rt.alloc(), file.as_slice(), 100, 0)?;
    let fault = at_data(UnpackReason::Inflate(InflateFault::Checksum));
    assert!(rt; means(&run, &RAW[..RAW_HEADER], &file[PACKED_HEADER..], fault));
    Ok(())
}

#[test]
fn other_compressed_data(rt: HostRuntime) -> Result<(), Fail> {
    let mut file = PACKED;
    // The field lzma_data instead of zlib_data.
    file[46] = 0x22;
    let run = read_all(rt.alloc(), file.as_slice(), 100, 0)?;
    assert!(rt; means(&run, &RAW[..RAW_HEADER], &file[PACKED_HEADER..], None));
    Ok(())
}

#[test]
fn a_read_that_fails(rt: HostRuntime) -> Result<(), Fail> {
    let run = read_all(rt.alloc(), Pieces::new(&PACKED, &[0], Some(3)), 100, 0)?;
    assert!(rt; run.bytes.as_slice() == &RAW[..RAW_HEADER]);
    assert!(rt; run.stop == Some(Stop::Read) && !run.all);
    Ok(())
}

#[test]
fn a_byte_of_a_payload(rt: HostRuntime) -> Result<(), Fail> {
    // Four pieces are of the header, and then some of the data frame.
    let run = read_all(rt.alloc(), PACKED.as_slice(), 8, 41)?;
    assert!(rt; run.place == Place::InPayload(29, 5) && !run.all);
    Ok(())
}

#[test]
fn a_frame_that_was_rewritten(rt: HostRuntime) -> Result<(), Fail> {
    let run = read_all(rt.alloc(), PACKED.as_slice(), 8, 19)?;
    assert!(rt; run.place == Place::Byte(29));
    Ok(())
}

#[test]
fn a_byte_of_a_frame_that_stands(rt: HostRuntime) -> Result<(), Fail> {
    let mut file = PACKED;
    file[78] = 0x24;
    // The tag of the zlib data, as the raw file has it.
    let run = read_all(rt.alloc(), file.as_slice(), 8, 36)?;
    assert!(rt; run.place == Place::Byte(46));
    Ok(())
}

#[test]
fn the_end_of_the_file(rt: HostRuntime) -> Result<(), Fail> {
    let run = read_all(rt.alloc(), PACKED.as_slice(), 100, 59)?;
    assert!(rt; run.place == Place::Byte(79));
    Ok(())
}
