//! Callers of `pbf_unpack`.

use crate::frame::begins_with_data;
use pbf_frame::{Feed, Stop, write_all};
use pbf_unpack::{Deflater, Inflater, PackedDrain, UnpackedFeed};
use std::alloc::Global;

/// Whether a packed file begins with data.
pub fn packed_begins_with_data<F: Feed>(
    alloc: Global,
    inflater: Inflater,
    feed: &mut F,
) -> Result<bool, Stop> {
    let mut feed = UnpackedFeed::new(alloc, inflater, feed);
    begins_with_data(alloc, &mut feed)
}

/// The published file that means this raw one.
pub fn publish(alloc: Global, deflater: Deflater, raw: &[u8]) -> Result<Vec<u8>, Stop> {
    let mut drain = PackedDrain::new(alloc, deflater, Vec::new(alloc));
    if write_all(&mut drain, raw).is_err() || drain.finish().is_err() {
        return Err(drain.stop().unwrap_or(Stop::Write));
    }
    Ok(drain.into_inner())
}
