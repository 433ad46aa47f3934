//! The Blob of a frame: its payload, and why it is refused.

ghost use Rattle.std.specs.Prelude.{◌≡◌, ◌+◌, ◌<◌, ◌≤◌, List, [], None, length};
ghost use Rattle.std.specs.Option.{option_map};
ghost use Rattle.pbf_wire.specs.declared.fault.Fault.{Fault};
ghost use Rattle.pbf_wire.specs.Faults.{or_more, found_in};
ghost use Rattle.pbf_wire.specs.Fields.{occurrence};
ghost use Rattle.pbf_wire.specs.Least.{least};
ghost use Rattle.pbf_wire.specs.Occurrence.{items, found};
ghost use Rattle.pbf_wire.specs.Reading.{occurrence_text, last_of};
ghost use Rattle.pbf_frame.specs.Blob.{compression_of, compressed, raw_faults, blob_fault, raw_payload_of, raw_at};
ghost use Rattle.pbf_wire.specs.declared.limits.TheConstants.{OFFSET_LIMIT, RAW_LIMIT};

use pbf_wire::{
    Fault, Field, Kind, Message, Payload, RAW_LIMIT, Reason, fault_where, judge_wire, last_field,
    lesser, occurrence_text,
};

// The fields of a Blob.
pub const RAW: u64 = 1;

pub const RAW_SIZE: u64 = 2;

pub const ZLIB_DATA: u64 = 3;

pub const LZMA_DATA: u64 = 4;

pub const BZIP2_DATA: u64 = 5;

pub const LZ4_DATA: u64 = 6;

pub const ZSTD_DATA: u64 = 7;

/// How the fields of a Blob are stored.
pub const BLOB_KINDS: [(u64, Kind); 7] = [
    (RAW, Kind::Bytes),
    (RAW_SIZE, Kind::Number),
    (ZLIB_DATA, Kind::Bytes),
    (LZMA_DATA, Kind::Bytes),
    (BZIP2_DATA, Kind::Bytes),
    (LZ4_DATA, Kind::Bytes),
    (ZSTD_DATA, Kind::Bytes),
];

/// Why data under this field number is not read.
fn compression_of(number: u64) -> Option<Reason>
    ensures { result ≡ compression_of number }
{
    match number {
        ZLIB_DATA => Some(Reason::Zlib),
        LZMA_DATA => Some(Reason::Lzma),
        BZIP2_DATA => Some(Reason::Bzip2),
        LZ4_DATA => Some(Reason::Lz4),
        ZSTD_DATA => Some(Reason::Zstd),
        _ => None,
    }
}

/// Whether a field holds compressed data.
fn judge_compression(field: Field<'_>) -> Option<Fault>
    ensures { result
        ≡ least (or_more field.entry.offset (compression_of field.entry.number) []) }
{
    let reason = compression_of(field.number)?;
    Some(Fault {
        offset: field.offset,
        reason,
    })
}

/// The least place of compressed data.
#[tactic(auto, using(crate::proofs::Parts::least_more, crate::proofs::Parts::lesser_nothing))]
fn judge_compressions(blob: Message<'_>) -> Option<Fault>
    ensures { result ≡ least (compressed (found_in blob.entry)) }
{
    let mut least = None;
    for field in blob.found() {
        least = lesser(least, judge_compression(field));
    }
    least
}

/// The least fault of the raw data, which is the last of its number, and of others.
fn judge_raw(at: u64, raw: Option<Field<'_>>, others: Option<Fault>) -> Option<Fault>
    ensures { (faults : List Fault) → others ≡ least faults
        → result ≡ least (raw_faults at (option_map occurrence raw.entry) faults) }
{
    let Some(field) = raw else {
        return Some(others.unwrap_or(Fault {
            offset: at,
            reason: Reason::NoRaw,
        }));
    };
    let long = occurrence_text(raw).len() >= RAW_LIMIT;
    lesser(fault_where(long, field.offset, Reason::RawLong), others)
}

/// The first fault of a blob whose first byte is at `at` in the file.
#[tactic(auto, using(crate::proofs::BlobLemmas::blob_steps))]
pub(crate) fn judge_blob(blob: &[u8], at: u64) -> Option<Fault>
    requires { at + length blob.now ≤ OFFSET_LIMIT }
    ensures { result ≡ blob_fault at blob.now }
{
    if let Err(fault) = judge_wire(blob, at, &BLOB_KINDS) {
        return Some(fault);
    }
    let blob = Message { bytes: blob, at };
    judge_raw(at, last_field(blob, RAW), judge_compressions(blob))
}

/// Where the text of a field begins, and `at` if it is absent.
fn text_place(field: Option<Field<'_>>, at: u64) -> u64
    requires { at ≤ OFFSET_LIMIT }
    ensures place { result ≡ raw_at at (option_map occurrence field.entry) }
    ensures fits { result + length (occurrence_text (option_map occurrence field.entry))
        ≤ OFFSET_LIMIT }
{
    match field {
        Some(
            Field {
                payload: Payload::Bytes(_, place),
                ..
            },
        ) => place,
        _ => at,
    }
}

/// The payload, and where its first byte is in the file.
#[tactic(auto, using(crate::proofs::BlobLemmas::payload_short))]
pub(crate) fn payload_in(blob: &[u8], at: u64) -> (&[u8], u64)
    requires { at + length blob.now ≤ OFFSET_LIMIT }
    ensures bytes { result.0.now ≡ raw_payload_of at blob.now }
    ensures place { result.1 ≡ raw_at at (last_of RAW (found (items at blob.now))) }
    ensures fits { result.1 + length result.0.now ≤ OFFSET_LIMIT }
    ensures short { blob_fault at blob.now ≡ None → length result.0.now < RAW_LIMIT }
{
    let raw = last_field(Message { bytes: blob, at }, RAW);
    (occurrence_text(raw), text_place(raw, at))
}
