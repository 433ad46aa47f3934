//! That a drain packs each frame that readers decompress, however it is written, and when it stops.

ghost use Rattle.std.specs.Prelude.{◌<◌};

use pbf_frame::{FrameKind, Sink, Stop, fill_vec, put_frame, write_all};
use pbf_unpack::{Deflater, Inflater, PackedDrain, UnpackedFeed};
use std::alloc::Global;
use std::test::Fail;

/// The length of a piece that has a whole file.
const WHOLE: usize = 10_000;

/// The length of the header frame once it is packed: 4 bytes, 13 of a header, and a blob of 31 bytes: 2 for `raw_size`, 2 before a stream of
/// one stored block, which has 11 bytes more than its 16.
const PACKED_HEADER: usize = 48;

/// A header frame, and a data frame of which a shorter one can be made.
fn raw_file(alloc: Global) -> Result<Vec<u8>, Stop> {
    let mut file = Vec::new(alloc);
    put_frame(&mut file, FrameKind::Header, b"\x22\x0eOsmSchema-V0.6")?;
    put_frame(&mut file, FrameKind::Data, &[0; 1_000])?;
    Ok(file)
}

/// A drain over this much room, to which the bytes were written in pieces of this length until one failed.
fn write_pieces(
    alloc: Global,
    bytes: &[u8],
    piece: usize,
    room: usize,
) -> Result<PackedDrain<Sink>, Stop>
    requires { 0 < piece }
{
    let sink = Sink::new(alloc, room, 0)?;
    let mut drain = PackedDrain::new(alloc, Deflater::new(alloc)?, sink);
    for piece in bytes.chunks(piece) {
        if write_all(&mut drain, piece).is_err() {
            break;
        }
    }
    Ok(drain)
}

/// What a drain with enough room gives for these bytes.
fn packed(alloc: Global, bytes: &[u8], piece: usize) -> Result<Vec<u8>, Stop>
    requires { 0 < piece }
{
    let mut drain = write_pieces(alloc, bytes, piece, 10_000)?;
    drain.finish()?;
    let mut packed = Vec::new(alloc);
    packed.extend_from_slice(drain.into_inner().bytes())?;
    Ok(packed)
}

/// What a packed file means.
fn unpacked(alloc: Global, bytes: &[u8]) -> Result<Vec<u8>, Stop> {
    let mut feed = UnpackedFeed::new(alloc, Inflater::new(alloc)?, bytes);
    let mut raw = Vec::new(alloc);
    fill_vec(&mut feed, &mut raw, 10_000)?;
    Ok(raw)
}

#[test]
fn a_frame_gets_shorter(rt: HostRuntime) -> Result<(), Fail> {
    let raw = raw_file(rt.alloc())?;
    let packed = packed(rt.alloc(), &raw, WHOLE)?;
    assert!(rt; packed.len() < 150);
    assert!(rt; unpacked(rt.alloc(), &packed)? == raw);
    Ok(())
}

#[test]
fn however_it_is_written(rt: HostRuntime) -> Result<(), Fail> {
    let raw = raw_file(rt.alloc())?;
    let whole = packed(rt.alloc(), &raw, WHOLE)?;
    assert!(rt; packed(rt.alloc(), &raw, 1)? == whole);
    assert!(rt; packed(rt.alloc(), &raw, 7)? == whole);
    Ok(())
}

#[test]
fn a_header_gets_longer(rt: HostRuntime) -> Result<(), Fail> {
    // Its payload has 16 bytes.
    let mut raw = Vec::new(rt.alloc());
    put_frame(&mut raw, FrameKind::Header, b"\x22\x0eOsmSchema-V0.6")?;
    let packed = packed(rt.alloc(), &raw, 5)?;
    assert!(rt; packed.len() == PACKED_HEADER);
    assert!(rt; unpacked(rt.alloc(), &packed)? == raw);
    Ok(())
}

#[test]
fn a_frame_of_another_type(rt: HostRuntime) -> Result<(), Fail> {
    let raw = b"\x00\x00\x00\x05\x0a\x01X\x18\x01Z".as_slice();
    assert!(rt; packed(rt.alloc(), raw, 5)?.as_slice() == raw);
    Ok(())
}

#[test]
fn no_bytes(rt: HostRuntime) -> Result<(), Fail> {
    assert!(rt; packed(rt.alloc(), &[], 1)?.is_empty());
    Ok(())
}

#[test]
fn a_file_that_is_cut(rt: HostRuntime) -> Result<(), Fail> {
    let raw = raw_file(rt.alloc())?;
    let mut drain = write_pieces(
        rt.alloc(),
        raw.get(..raw.len().saturating_sub(1)).unwrap_or(&[]),
        100,
        10_000,
    )?;
    assert!(rt; drain.stop().is_none());
    assert!(rt; drain.finish().is_err());
    assert!(rt; drain.stop().is_none());
    // The first frame went out before.
    assert!(rt; drain.into_inner().bytes().len() == PACKED_HEADER);
    Ok(())
}

#[test]
fn what_has_zlib_data(rt: HostRuntime) -> Result<(), Fail> {
    let raw = raw_file(rt.alloc())?;
    let packed = packed(rt.alloc(), &raw, WHOLE)?;
    let mut drain = write_pieces(rt.alloc(), &packed, 100, 10_000)?;
    assert!(rt; drain.finish().is_err());
    assert!(rt; drain.stop() == Some(Stop::Write));
    Ok(())
}

#[test]
fn a_drain_that_is_full(rt: HostRuntime) -> Result<(), Fail> {
    let raw = raw_file(rt.alloc())?;
    let mut drain = write_pieces(rt.alloc(), &raw, 100, 50)?;
    assert!(rt; drain.finish().is_err());
    assert!(rt; drain.stop() == Some(Stop::Write));
    assert!(rt; drain.finish().is_err());
    Ok(())
}
