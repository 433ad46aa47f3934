//! Frames, written.

ghost use Rattle.std.specs.Prelude.{◌≡◌, ◌+◌, ◌<◌, ◌≤◌, ◌++◌, List, ℕ, length, take, OnOk, IfErr};
ghost use Rattle.byteorder.specs.Endian.{big_bytes};
ghost use Rattle.pbf_wire.specs.Varint.{shortest};
ghost use Rattle.pbf_frame.specs.Devices.{IsFront};
ghost use Rattle.pbf_frame.specs.Transfers.{Added};
ghost use Rattle.pbf_frame.specs.Reads.{IsWriteStop};
ghost use Rattle.pbf_frame.specs.Writing.{written_name, written_header, written_blob, written_frame};
ghost use Rattle.pbf_wire.specs.declared.limits.TheConstants.{RAW_LIMIT};
ghost use Rattle.pbf_frame.specs.declared.put.TheConstants.{HEAD_ROOM};
ghost use Rattle.pbf_frame.specs.declared.frame.FrameKind.TheVariants as kinds;

use crate::blob::RAW;
use crate::device::Drain;
use crate::frame::FrameKind;
use crate::header::{DATASIZE, TYPE};
use crate::stop::Stop;
use crate::transfer::write_both;
use byteorder::{BigEndian, ByteOrder};
use pbf_wire::shortest_spelling;

/// The room for all of a frame but its payload.
pub const HEAD_ROOM: usize = 128;

/// Puts bytes after the first ones of the room, and reports how many there are then.
fn put(room: &mut [u8], at: usize, bytes: &[u8]) -> usize
    requires { at + length bytes.now ≤ length room.old }
    ensures front { take result room.new ≡ take at room.old ++ bytes.now }
    ensures end { result ≡ at + length bytes.now }
{
    let end = at + bytes.len();
    room[at..end].copy_from_slice(bytes);
    end
}

/// Puts a varint there.
fn put_varint(room: &mut [u8], at: usize, value: u64) -> usize
    requires { at + 10 ≤ length room.old }
    ensures front { take result room.new ≡ take at room.old ++ shortest value }
    ensures end { result ≤ at + 10 }
{
    let (spelling, length) = shortest_spelling(value);
    put(room, at, &spelling[..length])
}

fn name_of(kind: FrameKind) -> &'static [u8]
    ensures name { result.now ≡ written_name kind }
    ensures short { length result.now ≤ 9 }
{
    match kind {
        FrameKind::Header => b"OSMHeader",
        FrameKind::Data => b"OSMData",
        FrameKind::Other => b"",
    }
}

/// Puts a BlobHeader at the start of the room, and returns its length.
#[tactic(auto, using(crate::proofs::Putting::header_put))]
fn put_header(room: &mut [u8], kind: FrameKind, size: u64) -> usize
    requires { length room.old ≡ 64 }
    ensures header { take result room.new ≡ written_header kind size }
    ensures end { result ≤ 64 }
{
    let name = name_of(kind);
    let end = put_varint(room, 0, TYPE * 8 + 2);
    let end = put_varint(room, end, name.len() as u64);
    let end = put(room, end, name);
    let end = put_varint(room, end, DATASIZE * 8);
    put_varint(room, end, size)
}

/// Puts what a Blob has before its raw data of this length at the start of the room, and returns its length.
#[tactic(auto, using(crate::proofs::Putting::blob_put))]
fn put_blob_head(room: &mut [u8], payload: usize) -> usize
    requires { length room.old ≡ 32 }
    ensures blob { (p : List ℕ) → length p ≡ payload → take result room.new ++ p ≡ written_blob p }
    ensures end { result ≤ 20 }
{
    let end = put_varint(room, 0, RAW * 8 + 2);
    put_varint(room, end, payload as u64)
}

/// Puts what a frame has before its blob, which has this length, at the start of the room, and returns how many bytes that is.
#[tactic(auto, using(crate::proofs::Putting::front_put, crate::proofs::Putting::cuts))]
pub fn put_frame_head(room: &mut [u8], kind: FrameKind, blob: u64) -> usize
    requires { length room.old ≡ HEAD_ROOM }
    ensures front { take result room.new
        ≡ big_bytes 4 (length (written_header kind blob)) ++ written_header kind blob }
    ensures end { result ≤ 68 }
{
    let mut header = [0; 64];
    let header_end = put_header(&mut header, kind, blob);
    BigEndian::write_u32(room, header_end as u32);
    put(room, 4, &header[..header_end])
}

/// Puts all of a frame but its payload, which has this length, at the start of the room, and returns how many bytes that is.
#[tactic(auto, using(crate::proofs::Putting::frame_put, crate::proofs::Putting::cuts))]
pub fn put_head(room: &mut [u8], kind: FrameKind, payload: usize) -> usize
    requires room { length room.old ≡ HEAD_ROOM }
    requires short { payload < RAW_LIMIT }
    ensures head { (p : List ℕ) → length p ≡ payload
        → take result room.new ++ p ≡ written_frame kind p }
    ensures end { result ≤ HEAD_ROOM }
{
    let mut blob = [0; 32];
    let blob_end = put_blob_head(&mut blob, payload);
    let end = put_frame_head(room, kind, (blob_end + payload) as u64);
    put(room, end, &blob[..blob_end])
}

/// Writes the frame of a payload: a BlobHeader with its type and `datasize`, and a Blob with only raw data. It does
/// not allocate. After a stop a prefix of the frame went out; `Write` comes only if the drain's count of
/// failures rose, which never falls.
pub fn put_frame<D: Drain>(drain: &mut D, kind: FrameKind, payload: &[u8]) -> Result<(), Stop>
    requires known { kind ≡ kinds.Other → ⊥ }
    requires short { length payload.now < RAW_LIMIT }
    ensures ok { OnOk result (Added D.Drain drain.old (written_frame kind payload.now) drain.new) }
    ensures front { IsFront (D.taken drain.old) (D.taken drain.new)
        (written_frame kind payload.now) }
    ensures counts { D.failures drain.old ≤ D.failures drain.new }
    ensures stops { IfErr result (IsWriteStop (D.failures drain.old) (D.failures drain.new)) }
    ensures lender { D.lender drain.new ≡ D.lender drain.old }
{
    let mut head = [0; HEAD_ROOM];
    let length = put_head(&mut head, kind, payload.len());
    write_both(drain, &head[..length], payload)?;
    Ok(())
}
