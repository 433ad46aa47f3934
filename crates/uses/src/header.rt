//! A caller of `pbf_header`.

ghost use Rattle.std.specs.Prelude.{◌≡◌, ◌+◌, ◌≤◌, None, OnOk, length};
ghost use Rattle.pbf_header.specs.HeaderFaults.{header_fault};
ghost use Rattle.pbf_wire.specs.declared.limits.TheConstants.{OFFSET_LIMIT};

use pbf_header::Header;
use pbf_wire::ReadFault;
use std::alloc::Global;

/// Whether a header names a box.
pub fn names_box(alloc: Global, payload: &[u8], at: u64) -> Result<bool, ReadFault>
    requires placed { at + length payload.now ≤ OFFSET_LIMIT }
    ensures sound { OnOk result (header_fault at payload.now ≡ None) }
{
    Ok(Header::read(alloc, payload, at)?.bbox.is_some())
}
