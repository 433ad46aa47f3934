//! The BlobHeader of a frame: its type and the size of its blob.

ghost use Rattle.std.specs.Prelude.{◌≡◌, ◌+◌, ◌≤◌, length, IfOk, is_none, unwrap_or};
ghost use Rattle.std.specs.Option.{option_map};
ghost use Rattle.pbf_wire.specs.declared.fault.Reason.TheVariants.{Missing};
ghost use Rattle.pbf_wire.specs.Faults.{fault_where, found_in};
ghost use Rattle.pbf_wire.specs.Fields.{occurrence};
ghost use Rattle.pbf_wire.specs.Least.{least};
ghost use Rattle.pbf_wire.specs.Payload.{content};
ghost use Rattle.pbf_wire.specs.Reading.{last_of};
ghost use Rattle.pbf_frame.specs.Header.{int32_held, size_within, size_of, kind_named, size_faults, header_faults};
ghost use Rattle.pbf_frame.specs.Steps.{head_of};
ghost use Rattle.pbf_wire.specs.declared.limits.TheConstants.{OFFSET_LIMIT};

use crate::frame::FrameKind;
use pbf_wire::{
    Fault, Field, Kind, Message, Payload, Reason, fault_where, judge_wire, last_field, lesser,
    low_i32, occurrence_text,
};

// The fields of a BlobHeader.
pub(crate) const TYPE: u64 = 1;

pub(crate) const INDEXDATA: u64 = 2;

pub(crate) const DATASIZE: u64 = 3;

/// How the fields of a BlobHeader are stored.
pub(crate) const HEADER_KINDS: [(u64, Kind); 3] = [
    (TYPE, Kind::Bytes),
    (INDEXDATA, Kind::Bytes),
    (DATASIZE, Kind::Number),
];

/// The length from which on a BlobHeader is refused.
pub const HEADER_LIMIT: u32 = 65_536;

/// The largest `datasize`: the longest raw data, with room for its tag, its length and `raw_size`.
pub const LARGEST_SIZE: u32 = 33_555_455;

/// What a BlobHeader says of its frame.
#[derive(Clone, Copy, PartialEq, Eq)]
pub struct Head {
    pub kind: FrameKind,
    /// `datasize`: the length of the blob.
    pub size: u32,
}

/// The size that `datasize` names, if a blob may have it.
fn size_in(payload: Payload<'_>) -> Option<u32>
    ensures { result ≡ size_within (int32_held (content payload.entry)) }
{
    let Payload::Number(value) = payload else {
        return Some(0);
    };
    let size = low_i32(value);
    if size < 0 {
        return None;
    }
    let size = size.unsigned_abs();
    if size <= LARGEST_SIZE {
        Some(size)
    } else {
        None
    }
}

/// The size of the blob by the last `datasize`, and 0 if it is none.
fn size_in_header(header: Message<'_>) -> u32
    ensures size { result
        ≡ unwrap_or (size_of (last_of DATASIZE (found_in header.entry))) 0 }
    ensures small { result ≤ LARGEST_SIZE }
{
    let Some(datasize) = last_field(header, DATASIZE) else {
        return 0;
    };
    size_in(datasize.payload).unwrap_or(0)
}

fn kind_named(name: &[u8]) -> FrameKind
    ensures { result ≡ kind_named name.now }
{
    if name == b"OSMHeader".as_slice() {
        FrameKind::Header
    } else if name == b"OSMData".as_slice() {
        FrameKind::Data
    } else {
        FrameKind::Other
    }
}

fn judge_size(datasize: Option<Field<'_>>) -> Option<Fault>
    ensures { result ≡ least (size_faults (option_map occurrence datasize.entry)) }
{
    let field = datasize?;
    fault_where(
        size_in(field.payload).is_none(),
        field.offset,
        Reason::DataSize,
    )
}

/// Whether a required field, of which this is the last, is absent.
fn judge_presence(at: u64, number: u64, last: Option<Field<'_>>) -> Option<Fault>
    ensures { result
        ≡ least (fault_where (is_none (option_map occurrence last.entry)) at (Missing number)) }
{
    fault_where(last.is_none(), at, Reason::Missing(number))
}

/// The least fault of the fields of a header without wire faults.
#[tactic(auto, using(crate::proofs::Parts::lesser_parts))]
fn judge_head(header: Message<'_>) -> Option<Fault>
    ensures { result ≡ least (header_faults header.entry.at header.entry.bytes.now) }
{
    let name = last_field(header, TYPE);
    let datasize = last_field(header, DATASIZE);
    let absent = lesser(
        judge_presence(header.at, TYPE, name),
        judge_presence(header.at, DATASIZE, datasize),
    );
    lesser(absent, judge_size(datasize))
}

/// What a header says of its frame, or its first fault. Its first byte is at `at` in the file.
#[tactic(auto, unfolding(crate::specs::Steps::head_of))]
pub fn read_head(header: &[u8], at: u64) -> Result<Head, Fault>
    requires { at + length header.now ≤ OFFSET_LIMIT }
    ensures exact { result ≡ head_of at header.now }
    ensures small { IfOk result (λ head. head.size ≤ LARGEST_SIZE) }
{
    judge_wire(header, at, &HEADER_KINDS)?;
    let header = Message { bytes: header, at };
    if let Some(fault) = judge_head(header) {
        return Err(fault);
    }
    let kind = kind_named(occurrence_text(last_field(header, TYPE)));
    let size = size_in_header(header);
    Ok(Head { kind, size })
}
