//! One frame, unpacked.

ghost use Rattle.std.specs.Prelude.{◌≡◌, ◌+◌, ◌<◌, ◌≤◌, ◌++◌, length, IfOk, OnOk, vec_len};
ghost use Rattle.pbf_wire.specs.declared.limits.TheConstants.{OFFSET_LIMIT, RAW_LIMIT};
ghost use Rattle.pbf_frame.specs.declared.frame.FrameKind.TheVariants as kinds;
ghost use Rattle.pbf_frame.specs.Writing.{written_frame};
ghost use Rattle.pbf_unpack.specs.Payloads.{fault_of_outcome};
ghost use Rattle.pbf_unpack.specs.Stored.{stored_by_kind, stored_in_frame};
ghost use Rattle.pbf_unpack.specs.Unpacked.{unpacked_frame};

use crate::blob::packed_field;
use crate::buffers::Buffers;
use crate::fault::UnpackFault;
use crate::payload::unpack_payload;
use crate::whole::WholeFrame;
use pbf_frame::{FrameKind, HEAD_ROOM, RAW_SIZE, put_head};
use pbf_wire::{Message, last_field};
use std::alloc::AllocError;
use zlib::Inflater;

/// What became of a frame.
#[derive(Clone, Copy, PartialEq, Eq)]
pub(crate) enum Outcome {
    /// It has no zlib data, and stays as it is.
    Kept,
    /// It is in written form, with its payload.
    Unpacked,
    /// Its zlib data has a fault, and it stays as it is.
    Faulty(UnpackFault),
}

impl Outcome {
    /// The fault of its zlib data, if it has one.
    pub(crate) fn fault(self) -> Option<UnpackFault>
        ensures { result ≡ fault_of_outcome self }
    {
        match self {
            Outcome::Faulty(fault) => Some(fault),
            Outcome::Kept | Outcome::Unpacked => None,
        }
    }
}

/// Fills the vector with what a written frame has before its payload.
fn put_raw_head(front: &mut Vec<u8>, kind: FrameKind, payload: &[u8]) -> Result<(), AllocError>
    requires known { kind ≡ kinds.Other → ⊥ }
    requires short { length payload.now < RAW_LIMIT }
    ensures front { OnOk result (front.new.items ++ payload.now ≡ written_frame kind payload.now) }
    ensures held { vec_len front.new ≤ HEAD_ROOM }
{
    front.resize(HEAD_ROOM, 0)?;
    let end = put_head(front, kind, payload.len());
    front.truncate(end);
    Ok(())
}

/// Puts what a whole frame means into the buffer that is supplied.
pub(crate) fn unpack(
    buffers: &mut Buffers,
    inflater: &mut Inflater,
    frame: WholeFrame,
) -> Result<Outcome, AllocError>
    requires { frame.blob_at + vec_len buffers.old.packed ≤ OFFSET_LIMIT }
    ensures means { IfOk result (λ outcome. unpacked_frame frame.kind frame.blob_at
        (buffers.old.front.items ++ buffers.old.packed.items) buffers.old.packed.items
        ≡ (buffers.new.front.items ++ buffers.new.raw.items, fault_of_outcome outcome)) }
    ensures stored { IfOk result (λ outcome. stored_by_kind frame.kind outcome
        ≡ stored_in_frame frame.kind frame.blob_at buffers.old.packed.items) }
{
    if frame.kind == FrameKind::Other {
        buffers.stand();
        return Ok(Outcome::Kept);
    }
    let blob = Message {
        bytes: &buffers.packed,
        at: frame.blob_at,
    };
    let Some(stream) = packed_field(blob) else {
        buffers.stand();
        return Ok(Outcome::Kept);
    };
    let raw_size = last_field(blob, RAW_SIZE);
    if let Some(fault) = unpack_payload(inflater, stream, raw_size, &mut buffers.raw)? {
        buffers.stand();
        return Ok(Outcome::Faulty(fault));
    }
    put_raw_head(&mut buffers.front, frame.kind, &buffers.raw)?;
    Ok(Outcome::Unpacked)
}
