use pbf_frame::{
    Feed, Frame, FrameKind, FrameReader, FromRead, Pieces, Sink, Stop, ToWrite, frame_end,
    put_frame, write_all,
};
use pbf_wire::{Fault, Reason};
use std::alloc::{AllocError, Global};
use std::io;
use std::io::{Read, Write};
use std::test::Fail;

/// A header frame whose payload is empty.
const HEADER: [u8; 19] = *b"\x00\x00\x00\x0d\x0a\x09OSMHeader\x18\x02\x0a\x00";

/// A header, and a data frame with three dense nodes.
const THREE_DENSE_NODES: [u8; 59] =
    *b"\x00\x00\x00\x0d\x0a\x09OSMHeader\x18\x02\x0a\x00\x00\x00\x00\x0b\x0a\x07OSMData\x18\x19\x0a\x17\x0a\x02\x0a\x00\x12\x11\x12\x0f\x0a\x03\x14\x02\x08\x42\x03\x02\x03\x04\x4a\x03\x02\x00\x00";

/// A frame without where it lies in memory.
#[derive(Clone, Copy, Debug, PartialEq, Eq)]
struct Shown {
    offset: u64,
    kind: FrameKind,
    size: u32,
    payload_at: u64,
    length: usize,
}

fn sketch(frame: Frame<'_>) -> Shown {
    Shown {
        offset: frame.offset,
        kind: frame.kind,
        size: frame.size,
        payload_at: frame.payload_at,
        length: frame.payload.len(),
    }
}

const fn header(size: u32, payload_at: u64, length: usize) -> Shown {
    Shown {
        offset: 0,
        kind: FrameKind::Header,
        size,
        payload_at,
        length,
    }
}

const DATA: Shown = Shown {
    offset: 19,
    kind: FrameKind::Data,
    size: 25,
    payload_at: 36,
    length: 23,
};

/// What a reader gives before it ends, and how it ends.
#[derive(Debug, Drop, PartialEq, Eq)]
struct Run {
    frames: Vec<Shown>,
    end: Option<Stop>,
}

/// Reads to the end, and once more, which has to end in the same way. Want of memory is an error of its own.
fn read_all<F: Feed + Drop>(alloc: Global, feed: F) -> Result<Run, Stop> {
    let mut reader = FrameReader::new(alloc, feed);
    let mut frames = Vec::new(alloc);
    let mut end = None;
    for _ in 0..8 {
        match reader.next() {
            Ok(Some(frame)) => frames.push(sketch(frame))?,
            Ok(None) => break,
            Err(stop) => {
                end = Some(stop);
                break;
            }
        }
    }
    let again = match reader.next() {
        Ok(None) => None,
        Ok(Some(_)) => Some(Stop::Changed(0)),
        Err(stop) => Some(stop),
    };
    if again != end {
        return Ok(Run { frames, end: again });
    }
    if end == Some(Stop::Memory) {
        return Err(Stop::Memory);
    }
    Ok(Run { frames, end })
}

fn refused(offset: u64, reason: Reason) -> Option<Stop> {
    Some(Stop::Refused(Fault { offset, reason }))
}

/// Whether the bytes give these frames and this end: whole, one byte a read, and in pieces of 7.
fn gives(alloc: Global, bytes: &[u8], frames: &[Shown], end: Option<Stop>) -> Result<bool, Stop> {
    for length in [0, 1, 7] {
        let got = read_all(alloc, Pieces::new(bytes, &[length], None))?;
        if got.frames.as_slice() != frames || got.end != end {
            return Ok(false);
        }
    }
    Ok(true)
}

#[test]
fn header_alone(rt: HostRuntime) -> Result<(), Fail> {
    assert!(rt; gives(rt.alloc(), &HEADER, &[header(2, 19, 0)], None)?);
    let long_varint = b"\x00\x00\x00\x0e\x0a\x09OSMHeader\x18\x82\x00\x0a\x00";
    assert!(rt; gives(rt.alloc(), long_varint, &[header(2, 20, 0)], None)?);
    let size_first = b"\x00\x00\x00\x0d\x18\x02\x0a\x09OSMHeader\x0a\x00";
    assert!(rt; gives(rt.alloc(), size_first, &[header(2, 19, 0)], None)?);
    Ok(())
}

/// Whether the next frame has this name and this payload.
fn is_next<F: Feed>(
    reader: &mut FrameReader<F>,
    name: &[u8],
    payload: &[u8],
) -> Result<bool, Stop> {
    match reader.next()? {
        Some(frame) => Ok(frame.name == name && frame.payload == payload),
        None => Ok(false),
    }
}

/// Whether there is no other frame, however often it is tried.
fn is_at_end<F: Feed>(reader: &mut FrameReader<F>) -> Result<bool, Stop> {
    Ok(reader.next()?.is_none() && reader.next()?.is_none())
}

/// Whether both frames are lent, and the feed is given back at its end.
fn reads_both_frames(alloc: Global) -> Result<bool, Stop> {
    let mut feed = Pieces::new(&THREE_DENSE_NODES, &[], None);
    let mut reader = FrameReader::new(alloc, &mut feed);
    let payload = &THREE_DENSE_NODES[36..];
    let whole = reader.held() == 0
        && is_next(&mut reader, b"OSMHeader", b"")?
        && is_next(&mut reader, b"OSMData", payload)?
        && reader.held() == 36
        && reader.place() == 59
        && is_at_end(&mut reader)?;
    Ok(whole && reader.into_feed().read(&mut [0; 3]) == Ok(0))
}

#[test]
fn three_dense_nodes(rt: HostRuntime) -> Result<(), Fail> {
    let frames = [header(2, 19, 0), DATA];
    assert!(rt; gives(rt.alloc(), &THREE_DENSE_NODES, &frames, None)?);
    assert!(rt; reads_both_frames(rt.alloc())?);
    Ok(())
}

#[test]
fn faulty_headers(rt: HostRuntime) -> Result<(), Fail> {
    let inputs: [(&[u8], u64, Reason); 7] = [
        (b"\x00\x01\x00\x00", 0, Reason::HeaderLong),
        (b"\x00\x00\x00\x00", 4, Reason::Missing(1)),
        (b"\x00\x00\x00\x03\x0a\x01x", 4, Reason::Missing(3)),
        (b"\x00\x00\x00\x02\x18\x80", 4, Reason::VarintCut),
        (
            b"\x00\x00\x00\x0b\x18\xff\xff\xff\xff\xff\xff\xff\xff\xff\x01",
            4,
            Reason::DataSize,
        ),
        (
            b"\x00\x00\x00\x10\x0a\x09OSMHeader\x18\x80\x88\x80\x10",
            15,
            Reason::DataSize,
        ),
        (
            b"\x00\x00\x00\x0d\x0a\x09OSMHeader\x18\x00",
            17,
            Reason::NoRaw,
        ),
    ];
    for (bytes, offset, reason) in inputs {
        assert!(rt; gives(rt.alloc(), bytes, &[], refused(offset, reason))?);
    }
    Ok(())
}

#[test]
fn unknown_blob_alone(rt: HostRuntime) -> Result<(), Fail> {
    let other = Shown {
        offset: 0,
        kind: FrameKind::Other,
        size: 0,
        payload_at: 11,
        length: 0,
    };
    let bytes = b"\x00\x00\x00\x07\x0a\x03Foo\x18\x00";
    assert!(rt; gives(rt.alloc(), bytes, &[other], refused(11, Reason::NoHeader))?);
    Ok(())
}

/// A prefix, and zero bytes after it.
fn with_zeros(alloc: Global, front: &[u8], zeros: usize) -> Result<Vec<u8>, AllocError> {
    let mut bytes = Vec::new(alloc);
    bytes.extend_from_slice(front)?;
    bytes.resize(front.len().saturating_add(zeros), 0)?;
    Ok(bytes)
}

#[test]
fn longest_header(rt: HostRuntime) -> Result<(), Fail> {
    let front = b"\x00\x00\xff\xff\x0a\x09OSMHeader\x18\x02\x7a\xee\xff\x03";
    let mut bytes = with_zeros(rt.alloc(), front, 65_518)?;
    bytes.extend_from_slice(b"\x0a\x00")?;
    assert!(rt; gives(rt.alloc(), &bytes, &[header(2, 65_541, 0)], None)?);
    Ok(())
}

#[test]
fn longest_skipped_blob(rt: HostRuntime) -> Result<(), Fail> {
    let mut bytes = with_zeros(
        rt.alloc(),
        b"\x00\x00\x00\x09\x0a\x03Foo\x18\xa1\x9c\x01",
        20_001,
    )?;
    bytes.extend_from_slice(&HEADER)?;
    let other = Shown {
        offset: 0,
        kind: FrameKind::Other,
        size: 20_001,
        payload_at: 13,
        length: 0,
    };
    let after = Shown {
        offset: 20_014,
        ..header(2, 20_033, 0)
    };
    assert!(rt; gives(rt.alloc(), &bytes, &[other, after], None)?);
    bytes.truncate(20_013);
    assert!(rt; gives(rt.alloc(), &bytes, &[], refused(13, Reason::BlobCut))?);
    Ok(())
}

/// A header frame whose raw data has this length, by its spelling and that of `datasize`.
fn run_raw(alloc: Global, size: &[u8; 4], spelling: &[u8; 4], length: usize) -> Result<Run, Stop> {
    let mut front = Vec::new(alloc);
    front.extend_from_slice(b"\x00\x00\x00\x10\x0a\x09OSMHeader\x18")?;
    front.extend_from_slice(size)?;
    front.extend_from_slice(b"\x0a")?;
    front.extend_from_slice(spelling)?;
    let bytes = with_zeros(alloc, &front, length)?;
    read_all(alloc, Pieces::new(&bytes, &[], None))
}

#[test]
fn longest_raw(rt: HostRuntime) -> Result<(), Fail> {
    let longest = 33_554_431;
    let size = 33_554_436;
    let got = run_raw(
        rt.alloc(),
        b"\x84\x80\x80\x10",
        b"\xff\xff\xff\x0f",
        longest,
    )?;
    assert_eq!(rt;
        got.frames.as_slice(),
        [header(size, 25, longest)].as_slice()
    );
    assert_eq!(rt; got.end, None);
    let got = run_raw(
        rt.alloc(),
        b"\x85\x80\x80\x10",
        b"\x80\x80\x80\x10",
        longest + 1,
    )?;
    assert_eq!(rt; got.frames.len(), 0);
    assert_eq!(rt; got.end, refused(20, Reason::RawLong));
    Ok(())
}

#[test]
fn end_of_a_frame(rt: HostRuntime) {
    let limit = 1 << 62;
    assert_eq!(rt; frame_end(limit - 19, 13, 2), Some(limit));
    assert_eq!(rt; frame_end(limit - 19, 13, 3), None);
}

/// Whether a reader whose feed fails at this call stops by it, and stays spent though the feed could go on.
fn stops_at(alloc: Global, lengths: &[usize], call: u64) -> Result<bool, Stop> {
    let mut feed = Pieces::new(&THREE_DENSE_NODES, lengths, Some(call));
    let mut reader = FrameReader::new(alloc, &mut feed);
    for _ in 0..3 {
        match reader.next() {
            Ok(_) => {}
            Err(Stop::Read) => return Ok(matches!(reader.next(), Err(Stop::Read))),
            Err(stop) => return Err(stop),
        }
    }
    Ok(false)
}

#[test]
fn read_fails_at_each_call(rt: HostRuntime) -> Result<(), Fail> {
    for (length, calls) in [(0, 7), (1, 60), (7, 12)] {
        for call in 0..70 {
            assert_eq!(rt; stops_at(rt.alloc(), &[length], call)?, call < calls);
        }
    }
    Ok(())
}

/// The frame that is written for three dense nodes of which two are kept.
const WRITTEN: [u8; 37] =
    *b"\x00\x00\x00\x0b\x0a\x07OSMData\x18\x16\x0a\x14\x0a\x02\x0a\x00\x12\x0e\x12\x0c\x0a\x02\x14\x0a\x42\x02\x02\x00\x4a\x02\x02\x00";

/// Whether two frames are written so.
fn writes_frames(sink: &mut Sink) -> Result<bool, Stop> {
    put_frame(sink, FrameKind::Data, &WRITTEN[17..])?;
    if sink.bytes() != WRITTEN.as_slice() {
        return Ok(false);
    }
    put_frame(sink, FrameKind::Header, b"")?;
    Ok(sink.bytes().get(37..) == Some(HEADER.as_slice()))
}

/// Whether they are into a sink that takes so many bytes a write.
fn writes_into_sink(alloc: Global, most: usize) -> Result<bool, Stop> {
    let mut sink = Sink::new(alloc, 60, most)?;
    writes_frames(&mut sink)
}

#[test]
fn written_frames(rt: HostRuntime) -> Result<(), Fail> {
    assert!(rt; writes_into_sink(rt.alloc(), 0)? && writes_into_sink(rt.alloc(), 1)?);
    Ok(())
}

#[test]
fn write_fails_after_each_byte(rt: HostRuntime) -> Result<(), Fail> {
    for room in 0..37 {
        let mut sink = Sink::new(rt.alloc(), room, 0)?;
        let outcome = put_frame(&mut sink, FrameKind::Data, &WRITTEN[17..]);
        assert_eq!(rt; outcome, Err(Stop::Write));
        assert_eq!(rt; sink.bytes(), &WRITTEN[..room]);
    }
    Ok(())
}

/// A reader whose calls are interrupted, and a writer that takes nothing.
#[derive(Drop)]
struct Idle;

impl Read for Idle {
    fn read(&mut self, _buf: &mut [u8]) -> io::Result<usize> {
        Err(io::ErrorKind::Interrupted.into())
    }
}

impl Write for Idle {
    fn write(&mut self, _buf: &[u8]) -> io::Result<usize> {
        Ok(0)
    }

    fn flush(&mut self) -> io::Result<()> {
        Ok(())
    }
}

/// Whether the frames of a slice are read through std's reader.
fn reads_over_std(alloc: Global) -> Result<bool, Stop> {
    let got = read_all(alloc, FromRead::new(THREE_DENSE_NODES.as_slice()))?;
    Ok(got.frames.as_slice() == [header(2, 19, 0), DATA].as_slice() && got.end == None)
}

/// Whether a reader that gives nothing is a failed read.
fn idle_read_fails(alloc: Global) -> Result<bool, Stop> {
    Ok(read_all(alloc, FromRead::new(Idle))?.end == Some(Stop::Read))
}

/// Whether a frame is written to a vector through std's writer.
fn writes_over_std(alloc: Global) -> bool {
    let mut drain = ToWrite::new(Vec::new(alloc));
    put_frame(&mut drain, FrameKind::Data, b"").is_ok()
}

/// Whether a writer that takes nothing is a failed write, if there is something to write.
fn idle_write_fails() -> bool {
    put_frame(&mut ToWrite::new(Idle), FrameKind::Data, b"") == Err(Stop::Write)
        && write_all(&mut ToWrite::new(Idle), b"") == Ok(())
}

#[test]
fn devices_over_std(rt: HostRuntime) -> Result<(), Fail> {
    assert!(rt; reads_over_std(rt.alloc())? && idle_read_fails(rt.alloc())?);
    assert!(rt; writes_over_std(rt.alloc()) && idle_write_fails());
    Ok(())
}

#[test]
fn texts_of_stops(rt: HostRuntime) -> Result<(), Fail> {
    let stops = [
        (
            refused(36, Reason::Missing(1)),
            "refused at 36: 25 Missing(1)",
        ),
        (Some(Stop::Read), "read failed"),
        (Some(Stop::Write), "write failed"),
        (Some(Stop::Memory), "out of memory"),
        (Some(Stop::Changed(2)), "input changed in pass 2"),
    ];
    for (stop, text) in stops {
        if let Some(stop) = stop {
            assert_eq!(rt; format!(in rt.alloc(); "{stop}")?.as_str(), text);
        }
    }
    Ok(())
}
