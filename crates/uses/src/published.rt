//! A caller of `pbf_published`.

use pbf_frame::Stop;
use pbf_pass::Passes;
use pbf_published::{open_all, run_published};
use pbfcut::PlainTask;
use std::hash::BuildHasher;

/// Adds the text of a published file in memory to a vector, with dates.
pub fn text_of_published<S: BuildHasher + Drop>(
    passes: Passes,
    file: &[u8],
    text: &mut Vec<u8>,
    hasher: S,
) -> Result<(), Stop> {
    let files = vec![in passes.alloc; file, file]?;
    let mut feeds = open_all(passes.alloc, files, passes.check)?;
    match run_published(
        passes,
        PlainTask::Show { dates: true },
        &mut feeds,
        text,
        hasher,
    ) {
        Ok(_receipt) => Ok(()),
        Err(halt) => Err(halt.stop),
    }
}
