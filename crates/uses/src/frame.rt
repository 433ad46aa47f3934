//! A caller of `pbf_frame`.

ghost use Rattle.std.specs.Prelude.{◌≡◌, ◌≤◌};

use pbf_frame::{Feed, FrameKind, FrameReader, Stop};
use std::alloc::Global;

/// Whether the next frame is data.
fn next_is_data<F: Feed>(reader: &mut FrameReader<F>) -> Result<bool, Stop>
    ensures lender { F.lender reader.new.feed ≡ F.lender reader.old.feed }
    ensures counts { F.failures reader.old.feed ≤ F.failures reader.new.feed }
{
    let Some(frame) = reader.next()? else {
        return Ok(false);
    };
    Ok(frame.kind == FrameKind::Data)
}

/// Whether a file begins with data.
pub fn begins_with_data<F: Feed>(alloc: Global, feed: &mut F) -> Result<bool, Stop>
    ensures counts { F.failures feed.old ≤ F.failures feed.new }
{
    let mut reader = FrameReader::new(alloc, &mut *feed);
    let outcome = next_is_data(&mut reader);
    let _feed = reader.into_feed();
    outcome
}
