//! The bytes of one raw frame, as they come in.

ghost use Rattle.std.specs.Prelude.{◌≡◌, ◌+◌, ◌<◌, ◌≤◌, ◌++◌, ◌==◌, [], length, take, drop, IfOk, Ok, OnErr, vec_len, false, true};
ghost use Rattle.pbf_frame.specs.declared.header.Head.{Head};
ghost use Rattle.pbf_frame.specs.declared.header.TheConstants.{HEADER_LIMIT, LARGEST_SIZE};
ghost use Rattle.pbf_unpack.specs.declared.frame.Part.TheVariants as parts;
ghost use Rattle.pbf_frame.specs.Steps.{head_of};
ghost use Rattle.pbf_unpack.specs.Parts.{HasHeader, HoldsBlob, WantsHeader};

use byteorder::{BigEndian, ByteOrder};
use pbf_frame::{FrameKind, HEAD_ROOM, HEADER_LIMIT, RAW_LIMIT, put_head, read_head};
use std::alloc::{AllocError, Global};

/// Whether these are the same bytes.
pub(crate) fn is_same(bytes: &[u8], other: &[u8]) -> bool
    ensures { result ≡ true → bytes.now ≡ other.now }
{
    bytes == other
}

/// What is taken next.
#[derive(Clone, Copy, PartialEq, Eq)]
enum Part {
    /// Four bytes.
    Prefix,
    Header,
    Blob,
}

/// The length of the header, by its four bytes; 0 if it is too long.
#[tactic(auto, unfolding(crate::specs::Parts::header_length))]
fn length_of_header(front: &[u8]) -> usize
    requires { length front.now ≡ 4 }
    ensures long { HasHeader front.now result }
    ensures small { result < HEADER_LIMIT }
{
    let length = BigEndian::read_u32(front);
    if length < HEADER_LIMIT {
        length as usize
    } else {
        0
    }
}

/// The size of the blob, by its header; 0 if the header has a fault.
fn size_of_blob(front: &[u8]) -> usize
    requires { (4 ≤ length front.now) × (length front.now ≤ HEADER_LIMIT + 3) }
    ensures sized { (head : Head) → head_of 0 (drop 4 front.now) ≡ Ok head → result ≡ head.size }
    ensures small { result ≤ LARGEST_SIZE }
{
    match read_head(&front[4..], 0) {
        Ok(head) => head.size as usize,
        Err(_) => 0,
    }
}

/// A raw frame that is taken bit by bit.
#[derive(Drop)]
pub(crate) struct RawFrame {
    /// The four bytes and the header.
    pub(crate) front: Vec<u8>,
    pub(crate) blob: Vec<u8>,
    part: Part,
    /// How many bytes of that part are still to come. None are if the frame is whole, or can't become a whole one.
    wanted: usize,
    ghost prefix: { part ≡ parts.Prefix → vec_len front + wanted ≡ 4 },
    ghost prefix_begun: { part ≡ parts.Prefix → 0 < wanted },
    ghost header: { part ≡ parts.Header → WantsHeader (vec_len front) wanted },
    ghost header_long: { part ≡ parts.Header → HasHeader front.items wanted },
    ghost header_begun: { part ≡ parts.Header → wanted ≡ 0 → vec_len front ≡ 4 },
    ghost blob_long: { part ≡ parts.Blob → HoldsBlob front.items blob.items wanted },
    ghost front_held: { vec_len front ≤ HEADER_LIMIT + 3 },
    ghost blob_last: { (part ≡ parts.Blob → ⊥) → vec_len blob ≡ 0 },
    ghost blob_held: { part ≡ parts.Blob → vec_len blob + wanted ≤ LARGEST_SIZE },
}

impl RawFrame {
    ghost use Rattle.pbf_frame.specs.Writing.{written_frame};
    ghost use Rattle.pbf_unpack.specs.Packing.{frame_held};

    /// No bytes. It does not allocate.
    pub(crate) fn new(alloc: Global) -> RawFrame
        ensures { frame_held result ≡ [] }
    {
        RawFrame {
            front: Vec::new(alloc),
            blob: Vec::new(alloc),
            part: Part::Prefix,
            wanted: 4,
        }
    }

    /// The number of bytes held.
    pub(crate) fn held(&self) -> u64
        ensures { result ≤ HEADER_LIMIT + LARGEST_SIZE + 3 }
    {
        self.front.len() as u64 + self.blob.len() as u64
    }

    /// Whether there are no bytes.
    pub(crate) fn is_empty(&self) -> bool
        ensures empty { result ≡ true → frame_held self.now ≡ [] }
        ensures held { result ≡ false → 0 < length (frame_held self.now) }
    {
        self.front.is_empty() && self.blob.is_empty()
    }

    /// Whether nothing more belongs to it.
    pub(crate) fn is_complete(&self) -> bool
        ensures { result ≡ (self.now.wanted == 0) }
    {
        self.wanted == 0
    }

    /// Takes a prefix of the bytes, as much of it as belongs to the part that is taken.
    pub(crate) fn take(&mut self, bytes: &[u8]) -> Result<usize, AllocError>
        ensures bound { IfOk result (λ n. n ≤ length bytes.now) }
        ensures some { IfOk result (λ n. 0 < self.old.wanted → 0 < length bytes.now → 0 < n) }
        ensures took { IfOk result (λ n.
            frame_held self.new ≡ frame_held self.old ++ take n bytes.now) }
        ensures none { OnErr result (frame_held self.new ≡ frame_held self.old) }
    {
        let count = self.wanted.min(bytes.len());
        let taken = &bytes[..count];
        if self.part == Part::Blob {
            self.blob.extend_from_slice(taken)?;
        } else {
            self.front.extend_from_slice(taken)?;
        }
        self.wanted -= count;
        if self.wanted == 0 {
            if self.part == Part::Prefix {
                self.part = Part::Header;
                self.wanted = length_of_header(&self.front);
            } else if self.part == Part::Header {
                self.part = Part::Blob;
                self.wanted = size_of_blob(&self.front);
            }
        }
        Ok(count)
    }

    /// No bytes again.
    pub(crate) fn clear(&mut self)
        ensures held { frame_held self.new ≡ [] }
        ensures wanted { 0 < self.new.wanted }
    {
        self.front.clear();
        self.blob.clear();
        self.part = Part::Prefix;
        self.wanted = 4;
    }

    /// Whether it is in written form, with this end of its blob as its payload.
    pub(crate) fn is_written(&self, kind: FrameKind, payload: &[u8]) -> bool
        ensures { result ≡ true → frame_held self.now ≡ written_frame kind payload.now }
    {
        if payload.len() >= RAW_LIMIT {
            return false;
        }
        let mut head = [0; HEAD_ROOM];
        let end = put_head(&mut head, kind, payload.len());
        let front = self.front.len();
        if end < front || end - front + payload.len() != self.blob.len() {
            return false;
        }
        let (fields, rest) = self.blob.split_at(end - front);
        if !is_same(&head[..front], &self.front) {
            return false;
        }
        if !is_same(&head[front..end], fields) {
            return false;
        }
        is_same(rest, payload)
    }
}
