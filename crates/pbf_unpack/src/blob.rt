//! The zlib data of a blob.

ghost use Rattle.std.specs.Prelude.{◌≡◌};
ghost use Rattle.std.specs.Option.{option_map};
ghost use Rattle.pbf_wire.specs.Faults.{found_in};
ghost use Rattle.pbf_wire.specs.Fields.{occurrence};
ghost use Rattle.pbf_unpack.specs.Packed.{lacks, lacks_others, packed_in};

use pbf_frame::{BLOB_KINDS, BZIP2_DATA, LZ4_DATA, LZMA_DATA, RAW, ZLIB_DATA, ZSTD_DATA};
use pbf_wire::{Field, Message, judge_wire, last_field};

fn lacks(blob: Message<'_>, number: u64) -> bool
    ensures { result ≡ lacks number (found_in blob.entry) }
{
    last_field(blob, number).is_none()
}

/// Whether a blob has no data but zlib data.
fn lacks_others(blob: Message<'_>) -> bool
    ensures { result ≡ lacks_others (found_in blob.entry) }
{
    lacks(blob, RAW)
        && lacks(blob, LZMA_DATA)
        && lacks(blob, BZIP2_DATA)
        && lacks(blob, LZ4_DATA)
        && lacks(blob, ZSTD_DATA)
}

/// The zlib data of a blob without a fault in its wire form and without other data.
pub(crate) fn packed_field(blob: Message<'_>) -> Option<Field<'_>>
    ensures { option_map occurrence result ≡ packed_in blob.entry.at blob.entry.bytes.now }
{
    if judge_wire(blob.bytes, blob.at, &BLOB_KINDS).is_err() || !lacks_others(blob) {
        return None;
    }
    last_field(blob, ZLIB_DATA)
}
