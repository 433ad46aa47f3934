//! Callers of `pbfcut`.

use osm_box::BoundingBox;
use pbf_frame::Stop;
use pbf_pass::Passes;
use pbfcut::{CompleteWays, Counts, FileTask, check, list_blobs, show};
use std::alloc::Global;
use std::hash::BuildHasher;

/// How many frames a file in memory has; a line for each goes into `lines`.
pub fn frame_count(alloc: Global, mut file: &[u8], lines: &mut Vec<u8>) -> Result<u64, Stop> {
    list_blobs(alloc, &mut file, lines)
}

/// How many nodes it has.
pub fn node_count(alloc: Global, mut file: &[u8]) -> Result<u64, Stop> {
    Ok(check(alloc, &mut file)?.nodes)
}

/// Adds its text to a vector, with dates.
pub fn text_of(alloc: Global, file: &[u8], text: &mut Vec<u8>) -> Result<(), Stop> {
    let (mut first, mut second) = (file, file);
    show(alloc, &mut first, &mut second, text, true)?;
    Ok(())
}

/// Adds the extract of a box to a vector, and returns how many entities it has.
pub fn box_extract<S: BuildHasher + Drop>(
    passes: Passes,
    file: &[u8],
    area: BoundingBox,
    extract: &mut Vec<u8>,
    hasher: S,
) -> Result<Counts, Stop> {
    let mut feeds = [file, file, file];
    let receipt = CompleteWays { area }.run(passes, &mut feeds, extract, hasher)?;
    Ok(receipt.counts)
}
