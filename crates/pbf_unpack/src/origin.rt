//! From a place in the raw file back to the packed one.

use crate::feed::{Origin, UnpackedFeed};
use crate::reports::Place;
use pbf_frame::Feed;

/// Where in the packed file a byte of the raw one comes from, by the frame that it lies in.
fn place_in(origin: Origin, offset: u64) -> Place {
    match origin.payload {
        None => {
            let beyond = offset.saturating_sub(origin.raw);
            Place::Byte(origin.packed.saturating_add(beyond))
        }
        Some(start) if offset >= start => Place::InPayload(origin.packed, offset - start),
        Some(_) => Place::Byte(origin.packed),
    }
}

impl<F: Feed> UnpackedFeed<F> {
    /// Where a byte of the raw file comes from that lies in the frame that was supplied last or, if it is before that, in the first
    /// header frame.
    pub fn place_of(&self, offset: u64) -> Place {
        match self.header {
            Some(header) if offset < self.origin.raw => place_in(header, offset),
            _ => place_in(self.origin, offset),
        }
    }
}
