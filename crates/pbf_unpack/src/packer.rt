//! One frame, packed.

ghost use Rattle.std.specs.Prelude.{◌≡◌, ◌+◌, ◌-◌, ◌≤◌, ◌<◌, ◌++◌, List, ℕ, None, Ok, false, true, length, IfOk, IfSome, vec_len};
ghost use Rattle.pbf_wire.specs.declared.limits.TheConstants.{OFFSET_LIMIT, RAW_LIMIT};
ghost use Rattle.pbf_frame.specs.declared.frame.TheConstants.{FILE_LIMIT};
ghost use Rattle.pbf_frame.specs.Writing.{written_frame};
ghost use Rattle.zlib.specs.Stream.{inflated};
ghost use Rattle.pbf_unpack.specs.Streams.{stream_in, HasStream};
ghost use Rattle.pbf_unpack.specs.Unpacked.{as_they_stand, unpacked_frame};
ghost use Rattle.pbf_unpack.specs.DrainStates.{IsPackedAt, Stands};
ghost use Rattle.pbf_unpack.specs.Packed.{HoldsPacked};
ghost use Rattle.pbf_unpack.specs.RawFrames.{IsOneFrame, IsPastLimit};
ghost use Rattle.pbf_unpack.specs.declared.packer.TheConstants.{FIELDS_ROOM, MOST_ROOM};
ghost use Rattle.pbf_frame.specs.declared.put.TheConstants.{HEAD_ROOM};

use crate::blob::packed_field;
use crate::frame::{RawFrame, is_same};
use crate::payload::fits_size;
use crate::whole::{WholeFrame, whole_frame};
use deflate::{Deflater, most_packed};
use pbf_frame::{FrameKind, HEAD_ROOM, RAW, RAW_LIMIT, RAW_SIZE, ZLIB_DATA, put_frame_head};
use pbf_wire::{Message, last_field, shortest_spelling};
use std::alloc::{AllocError, Global};

/// The room before a stream for the other fields of its blob: two tags and two varints.
const FIELDS_ROOM: usize = 32;

/// The longest room: a stream may be longer than its payload.
const MOST_ROOM: usize = FIELDS_ROOM + RAW_LIMIT + RAW_LIMIT / 512 + 32;

/// How a frame goes on.
#[derive(Clone, Copy, PartialEq, Eq)]
pub(crate) enum Packing {
    /// Packed.
    Packed,
    /// As it is, since it isn't in written form, or would be too long if it were packed.
    Kept,
}

/// Packs frames, one after the other.
#[derive(Drop)]
pub(crate) struct FramePacker {
    deflater: Deflater,
    /// The four bytes and the header of the packed frame.
    front: Vec<u8>,
    /// Its blob is here, from `start` to `end`.
    room: Vec<u8>,
    start: usize,
    end: usize,
    ghost begins: { start ≤ end },
    ghost ends: { end ≤ vec_len room },
    ghost front_held: { vec_len front ≤ HEAD_ROOM },
    ghost room_held: { vec_len room ≤ MOST_ROOM },
}

/// Whether the bytes of a whole frame mean themselves: its blob isn't read, or has no zlib data.
fn stands(frame: WholeFrame, blob: &[u8]) -> bool
    requires { frame.blob_at + length blob.now ≤ OFFSET_LIMIT }
    ensures stands { (bytes : List ℕ) → result ≡ true
        → unpacked_frame frame.kind frame.blob_at bytes blob.now ≡ as_they_stand bytes }
    ensures packed { result ≡ false → HoldsPacked frame.kind frame.blob_at blob.now }
{
    frame.kind == FrameKind::Other
        || packed_field(Message {
            bytes: blob,
            at: frame.blob_at,
        })
        .is_none()
}

/// Puts bytes after the first ones of the room, and returns how many there are then.
fn put(room: &mut [u8; FIELDS_ROOM], at: usize, bytes: &[u8]) -> usize
    requires { at + length bytes.now ≤ FIELDS_ROOM }
    ensures { result ≡ at + length bytes.now }
{
    let end = at + bytes.len();
    room[at..end].copy_from_slice(bytes);
    end
}

/// What a packed blob has before its stream: `raw_size`, and the tag and the length of its data. Returns its length too.
fn fields_before(raw_size: usize, stream: usize) -> ([u8; FIELDS_ROOM], usize)
    ensures { result.1 ≤ FIELDS_ROOM }
{
    let (size, size_length) = shortest_spelling(raw_size as u64);
    let (count, count_length) = shortest_spelling(stream as u64);
    let mut fields = [0; FIELDS_ROOM];
    let end = put(&mut fields, 0, &[(RAW_SIZE * 8) as u8]);
    let end = put(&mut fields, end, &size[..size_length]);
    let end = put(&mut fields, end, &[(ZLIB_DATA * 8 + 2) as u8]);
    let end = put(&mut fields, end, &count[..count_length]);
    (fields, end)
}

/// Packs a payload into the room, after that for the other fields, and returns where it ends; nothing if there is no room for it.
fn pack_after(deflater: &mut Deflater, payload: &[u8], room: &mut [u8]) -> Option<usize>
    requires room { FIELDS_ROOM ≤ length room.old }
    requires short { length payload.now < RAW_LIMIT }
    ensures stream { IfSome result (λ end. HasStream end room.new payload.now) }
    ensures within { IfSome result (λ end. end ≤ length room.new) }
{
    let length = deflater.deflate_into(payload, &mut room[FIELDS_ROOM..])?;
    Some(FIELDS_ROOM + length)
}

/// Puts the other fields of the blob before its stream, which ends here, and returns where they begin.
fn put_fields(raw_size: usize, room: &mut [u8], end: usize) -> usize
    requires stream { FIELDS_ROOM ≤ end }
    requires room { end ≤ length room.old }
    ensures stream { stream_in end room.new ≡ stream_in end room.old }
    ensures within { result ≤ FIELDS_ROOM }
{
    let (fields, count) = fields_before(raw_size, end - FIELDS_ROOM);
    let start = FIELDS_ROOM - count;
    room[start..FIELDS_ROOM].copy_from_slice(&fields[..count]);
    start
}

impl FramePacker {
    ghost use Rattle.pbf_unpack.specs.Packing.{frame_held};
    ghost use Rattle.pbf_unpack.specs.Packs.{packed_blob, packed_stream, packed_held, goes_on};

    /// It allocates its buffers when a frame needs them.
    pub(crate) fn new(alloc: Global, deflater: Deflater) -> FramePacker {
        FramePacker {
            deflater,
            front: Vec::new(alloc),
            room: Vec::new(alloc),
            start: 0,
            end: 0,
        }
    }

    /// The number of bytes held, beside the tables of the `Deflater`.
    pub(crate) fn held(&self) -> u64
        ensures { result ≤ HEAD_ROOM + MOST_ROOM }
    {
        self.front.len() as u64 + self.room.len() as u64
    }

    /// The blob of the packed frame.
    fn blob(&self) -> &[u8]
        ensures { result.now ≡ packed_blob self.now }
    {
        &self.room[self.start..self.end]
    }

    /// What goes on of a frame, in two parts.
    pub(crate) fn parts<'a>(&'a self, frame: &'a RawFrame, packing: Packing) -> (&'a [u8], &'a [u8])
        ensures { result.0.now ++ result.1.now ≡ goes_on frame.now self.now packing }
    {
        match packing {
            Packing::Packed => (&self.front, self.blob()),
            Packing::Kept => (&frame.front, &frame.blob),
        }
    }

    /// Packs a payload into the room, as the end of a blob; false if there is no room for it.
    fn put_stream(&mut self, payload: &[u8]) -> Result<bool, AllocError>
        requires { length payload.now < RAW_LIMIT }
        ensures { IfOk result (λ done. done ≡ true
            → HasStream self.new.end self.new.room.items payload.now) }
    {
        let most = FIELDS_ROOM + most_packed(payload.len());
        if self.room.len() < most {
            self.room.resize(most, 0)?;
        }
        let Some(end) = pack_after(&mut self.deflater, payload, &mut self.room) else {
            return Ok(false);
        };
        self.start = FIELDS_ROOM;
        self.end = end;
        Ok(true)
    }

    /// Puts the four bytes and the header before the blob.
    fn put_frame_head(&mut self, kind: FrameKind) -> Result<(), AllocError>
        ensures stream { packed_stream self.new ≡ packed_stream self.old }
        ensures end { self.new.end ≡ self.old.end }
    {
        let blob = self.blob().len() as u64;
        self.front.resize(HEAD_ROOM, 0)?;
        let end = put_frame_head(&mut self.front, kind, blob);
        self.front.truncate(end);
        Ok(())
    }

    /// Whether what was put is a whole frame of this kind at its place, whose blob has that stream as its data, and says that it stands for
    /// so many bytes.
    fn is_sound(&self, kind: FrameKind, raw_size: usize, place: u64) -> bool
        requires place { place ≤ FILE_LIMIT }
        requires stream { FIELDS_ROOM ≤ self.now.end }
        ensures means { (payload : List ℕ) → result ≡ true → length payload ≡ raw_size
            → inflated (RAW_LIMIT - 1) (packed_stream self.now) ≡ Ok payload
            → IsPackedAt place (written_frame kind payload) (packed_held self.now) }
        ensures fits { result ≡ true → place + length (packed_held self.now) ≤ FILE_LIMIT }
    {
        let blob = self.blob();
        let Some(frame) = whole_frame(&self.front, blob, place) else {
            return false;
        };
        let message = Message {
            bytes: blob,
            at: frame.blob_at,
        };
        let Some(stream) = packed_field(message) else {
            return false;
        };
        if frame.kind != kind || kind == FrameKind::Other {
            return false;
        }
        if !is_same(stream.payload.bytes(), &self.room[FIELDS_ROOM..self.end]) {
            return false;
        }
        fits_size(last_field(message, RAW_SIZE), raw_size)
    }

    /// Packs a frame that is in written form, even if it gets longer by that: many readers take no raw blobs.
    fn pack_written(
        &mut self,
        frame: &RawFrame,
        raw: WholeFrame,
        place: u64,
    ) -> Result<bool, AllocError>
        requires place { place ≤ FILE_LIMIT }
        requires blob { raw.blob_at + vec_len frame.now.blob ≤ OFFSET_LIMIT }
        ensures { IfOk result (λ packed. packed ≡ true
            → Stands place (frame_held frame.now) (packed_held self.new)) }
    {
        let blob = Message {
            bytes: &frame.blob,
            at: raw.blob_at,
        };
        let Some(field) = last_field(blob, RAW) else {
            return Ok(false);
        };
        let payload = field.payload.bytes();
        if !frame.is_written(raw.kind, payload) || payload.len() >= RAW_LIMIT {
            return Ok(false);
        }
        if !self.put_stream(payload)? {
            return Ok(false);
        }
        self.start = put_fields(payload.len(), &mut self.room, self.end);
        self.put_frame_head(raw.kind)?;
        Ok(self.is_sound(raw.kind, payload.len(), place))
    }

    /// Packs a frame that begins at this place of the packed file; or returns nothing, if it is no whole frame there, or has zlib data.
    pub(crate) fn pack(
        &mut self,
        frame: &RawFrame,
        place: u64,
    ) -> Result<Option<Packing>, AllocError>
        requires { place ≤ FILE_LIMIT }
        ensures stands { IfOk result (λ o. IfSome o (λ packing.
            Stands place (frame_held frame.now) (goes_on frame.now self.new packing))) }
        ensures one { IfOk result (λ o. IfSome o (λ _. IsOneFrame (frame_held frame.now))) }
        ensures past { IfOk result (λ o. o ≡ None
            → IsPastLimit place frame.now.front.items frame.now.blob.items) }
    {
        let Some(raw) = whole_frame(&frame.front, &frame.blob, place) else {
            return Ok(None);
        };
        if !stands(raw, &frame.blob) {
            return Ok(None);
        }
        if self.pack_written(frame, raw, place)? {
            return Ok(Some(Packing::Packed));
        }
        Ok(Some(Packing::Kept))
    }
}
