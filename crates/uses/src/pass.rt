//! A caller of `pbf_pass`.

use pbf_frame::Stop;
use pbf_pass::check;
use std::alloc::Global;

/// How many nodes a file in memory has.
pub fn node_count(alloc: Global, mut file: &[u8]) -> Result<u64, Stop> {
    Ok(check(alloc, &mut file)?.nodes)
}
