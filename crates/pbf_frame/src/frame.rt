//! Frames: what they are, and what a reader lends of one.

ghost use Rattle.std.specs.Prelude.{◌≡◌, ◌+◌, ◌<◌, ◌≤◌, length, nat_le, if◌then◌else◌, Some, None};
ghost use Rattle.pbf_wire.specs.declared.limits.TheConstants.{OFFSET_LIMIT, RAW_LIMIT};
ghost use Rattle.pbf_frame.specs.declared.frame.TheConstants.{FILE_LIMIT};

/// A file has at most this many bytes.
pub const FILE_LIMIT: u64 = 1 << 62;

/// What a frame is, by the type in its BlobHeader.
#[derive(Clone, Copy, Debug, PartialEq, Eq)]
pub enum FrameKind {
    /// `OSMHeader`: the payload is a HeaderBlock.
    Header,
    /// `OSMData`: the payload is a PrimitiveBlock.
    Data,
    /// Another type: the blob is skipped.
    Other,
}

/// A frame, lent by its reader until the next call.
#[derive(Clone, Copy)]
pub struct Frame<'a> {
    /// Where in the file it begins.
    pub offset: u64,
    pub kind: FrameKind,
    /// The type as it is in the BlobHeader.
    pub name: &'a [u8],
    /// `datasize`: the length of the blob, at most 33,555,455.
    pub size: u32,
    /// Where in the file the payload begins; for `Other` where the blob begins.
    pub payload_at: u64,
    /// The raw data of the blob; empty for `Other`.
    pub payload: &'a [u8],
    ghost short: { length payload.now < RAW_LIMIT },
    ghost fits: { payload_at + length payload.now ≤ OFFSET_LIMIT },
}

/// Where a frame ends that begins at `offset` and whose BlobHeader and Blob have these lengths; `None` after byte 2^62.
pub fn frame_end(offset: u64, header: u32, size: u32) -> Option<u64>
    requires { offset ≤ FILE_LIMIT }
    ensures { result ≡ (if nat_le (offset + 4 + header + size) FILE_LIMIT
        then Some (offset + 4 + header + size) else None) }
{
    let end = offset + 4 + u64::from(header) + u64::from(size);
    if end <= FILE_LIMIT { Some(end) } else { None }
}
