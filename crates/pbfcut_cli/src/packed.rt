//! The line of a refusal of a published file, whose blobs are compressed.

ghost use Rattle.std.specs.Prelude.{◌≡◌, ◌++◌, IfOk, codes, string_bytes};
ghost use Rattle.pbfcut_cli.specs.Endings.{detail_text, packed_text, place_text};

use crate::endings::reason_line;
use pbf_unpack::{Place, UnpackReason};
use pbf_wire::Reason;
use std::alloc::{AllocError, Global};

/// Why and where a published file is refused.
#[derive(Clone, Copy, Debug, PartialEq, Eq)]
pub struct PackedRefusal {
    /// Why the raw file that it means is refused.
    pub reason: Reason,
    /// Where in the published file.
    pub place: Place,
    /// What is wrong with the zlib data there, if `reason` is that a blob holds such data.
    pub detail: Option<UnpackReason>,
}

/// As `refused at 1234`, or `refused in the blob at 1234, byte 56 of its payload`.
fn place_line(alloc: Global, place: Place) -> Result<String, AllocError>
    ensures { IfOk result (λ text. string_bytes text ≡ place_text place) }
{
    match place {
        Place::Byte(offset) => format!(in alloc; "refused at {offset}"),
        Place::InPayload(frame, byte) => format!(in alloc;
            "refused in the blob at {frame}, byte {byte} of its payload"
        ),
    }
}

/// As `: Checksum`, or nothing.
fn detail_line(alloc: Global, detail: Option<UnpackReason>) -> Result<String, AllocError>
    ensures { IfOk result (λ text. string_bytes text ≡ detail_text detail) }
{
    match detail {
        Some(reason) => {
            let name = reason.name();
            format!(in alloc; ": {name}")
        }
        None => String::from_str(alloc, ""),
    }
}

/// The parts of a line, put together.
fn joined(
    alloc: Global,
    program: &str,
    place: &str,
    reason: &str,
    detail: &str,
) -> Result<String, AllocError>
    ensures { IfOk result (λ text. string_bytes text
        ≡ program.now ++ codes ": " ++ place.now ++ codes ": " ++ reason.now ++ detail.now) }
{
    format!(in alloc; "{program}: {place}: {reason}{detail}")
}

/// The line of a refusal for standard error, without its end, as
/// `pbfcutz: refused in the blob at 1234, byte 56 of its payload: 31 StringIndex`.
pub(crate) fn packed_line(
    alloc: Global,
    program: &str,
    refusal: &PackedRefusal,
) -> Result<String, AllocError>
    ensures { IfOk result (λ text. string_bytes text ≡ packed_text program.now refusal.now) }
{
    let place = place_line(alloc, refusal.place)?;
    let reason = reason_line(alloc, &refusal.reason)?;
    let detail = detail_line(alloc, refusal.detail)?;
    joined(
        alloc,
        program,
        place.as_str(),
        reason.as_str(),
        detail.as_str(),
    )
}
