//! The payload of zlib data.

ghost use Rattle.std.specs.Prelude.{◌≡◌, ◌-◌, ◌<◌, ◌≤◌, IfOk, IfNone, vec_len, max};
ghost use Rattle.std.specs.Option.{option_map};
ghost use Rattle.pbf_wire.specs.Fields.{occurrence};
ghost use Rattle.pbf_wire.specs.Payload.{content};
ghost use Rattle.pbf_wire.specs.declared.limits.TheConstants.{RAW_LIMIT};
ghost use Rattle.pbf_frame.specs.Header.{int32_held};
ghost use Rattle.zlib.specs.Stream.{inflated};
ghost use Rattle.pbf_unpack.specs.Packed.{is_length, fits_size, unpacked_payload};
ghost use Rattle.pbf_unpack.specs.Payloads.{IsMeaning};

use crate::fault::{UnpackFault, UnpackReason};
use pbf_frame::RAW_LIMIT;
use pbf_wire::{Field, Payload, low_i32};
use std::alloc::AllocError;
use zlib::{InflateFault, Inflater};

/// Whether the number that a field holds is this length.
fn is_length(payload: Payload<'_>, length: usize) -> bool
    ensures { result ≡ is_length (int32_held (content payload.entry)) length }
{
    let Payload::Number(value) = payload else {
        return length == 0;
    };
    let size = low_i32(value);
    size >= 0 && size.unsigned_abs() as usize == length
}

/// Whether `raw_size` is this length, or absent.
pub(crate) fn fits_size(raw_size: Option<Field<'_>>, length: usize) -> bool
    ensures { result ≡ fits_size (option_map occurrence raw_size.entry) length }
{
    match raw_size {
        Some(field) => is_length(field.payload, length),
        None => true,
    }
}

/// How many bytes a byte of a stream is taken to mean at first, which is enough for most map data. It may mean 1,032.
const USUAL_OF_A_BYTE: usize = 4;

/// The least room by which a stream that had too little is tried again.
const MORE_ROOM: usize = 4_096;

/// The room that is tried first, within the limit: what `raw_size` says or, without it, what such a stream mostly means.
fn first_room(raw_size: Option<Field<'_>>, stream: usize) -> usize
    ensures { result < RAW_LIMIT }
{
    let room = match raw_size {
        Some(
            Field {
                payload: Payload::Number(value),
                ..
            },
        ) => value as usize,
        _ => stream.saturating_mul(USUAL_OF_A_BYTE),
    };
    room.min(RAW_LIMIT - 1)
}

/// Fills the vector with the output of a stream, of at most this many bytes.
fn inflate_within(
    inflater: &mut Inflater,
    packed: &[u8],
    limit: usize,
    out: &mut Vec<u8>,
) -> Result<Option<InflateFault>, AllocError>
    ensures exact { IfOk result (λ fault. IsMeaning (inflated limit packed.now) fault out.new.items) }
    ensures within { IfOk result (λ fault. IfNone fault (vec_len out.new ≤ limit)) }
    ensures held { vec_len out.new ≤ max limit (vec_len out.old) }
{
    out.resize(limit, 0)?;
    match inflater.inflate_into(packed, out) {
        Ok(length) => {
            out.truncate(length);
            Ok(None)
        }
        Err(fault) => Ok(Some(fault)),
    }
}

/// The same with the limit of raw data. `room` is tried first, and then at least twice as much each time, so that all tries together take no
/// more than some three times as long as the last one, and make no more room than they need.
fn inflate_raw(
    inflater: &mut Inflater,
    packed: &[u8],
    room: usize,
    out: &mut Vec<u8>,
) -> Result<Option<InflateFault>, AllocError>
    ensures exact { IfOk result (λ fault.
        IsMeaning (inflated (RAW_LIMIT - 1) packed.now) fault out.new.items) }
    ensures within { IfOk result (λ fault. IfNone fault (vec_len out.new < RAW_LIMIT)) }
    ensures held { vec_len out.new ≤ max (RAW_LIMIT - 1) (vec_len out.old) }
{
    let mut room = room;
    'tries: while room < RAW_LIMIT - 1 {
        if inflate_within(inflater, packed, room, out)?.is_none() {
            return Ok(None);
        }
        room = 2 * room + MORE_ROOM;
    }
    inflate_within(inflater, packed, RAW_LIMIT - 1, out)
}

/// Fills the vector with the payload that zlib data stands for, or returns why there is none; the vector is unspecified then.
pub(crate) fn unpack_payload(
    inflater: &mut Inflater,
    stream: Field<'_>,
    raw_size: Option<Field<'_>>,
    payload: &mut Vec<u8>,
) -> Result<Option<UnpackFault>, AllocError>
    ensures exact { IfOk result (λ fault.
        IsMeaning (unpacked_payload (occurrence stream.entry) (option_map occurrence raw_size.entry))
        fault payload.new.items) }
    ensures within { IfOk result (λ fault. IfNone fault (vec_len payload.new < RAW_LIMIT)) }
    ensures held { vec_len payload.new ≤ max (RAW_LIMIT - 1) (vec_len payload.old) }
{
    let packed = stream.payload.bytes();
    let room = first_room(raw_size, packed.len());
    let fault = inflate_raw(inflater, packed, room, payload)?;
    let reason = match fault {
        Some(fault) => UnpackReason::Inflate(fault),
        None if fits_size(raw_size, payload.len()) => return Ok(None),
        None => UnpackReason::RawSize,
    };
    Ok(Some(UnpackFault {
        offset: stream.offset,
        reason,
    }))
}
