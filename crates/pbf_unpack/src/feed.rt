//! The raw file that a packed one means, as a feed.

ghost use Rattle.std.specs.Prelude.{◌+◌, ◌≤◌, vec_len};
ghost use Rattle.pbf_frame.specs.declared.frame.TheConstants.{FILE_LIMIT};

use crate::buffers::Buffers;
use crate::fault::UnpackFault;
use crate::stored::Stored;
use pbf_frame::Feed;
use std::alloc::{AllocError, Global};
use zlib::Inflater;

/// How a feed goes on.
#[derive(Clone, Copy, PartialEq, Eq)]
pub(crate) enum FeedState {
    /// With the next frame.
    Reading,
    /// With bytes as they are, since they begin no whole frame.
    PassingOn,
    /// With what is in the buffers, after which there is nothing.
    Ended,
    /// With bytes as they are, since a read of the feed below failed.
    Failed,
    /// Not at all, since memory was refused.
    Refused,
}

/// Where a frame comes from.
#[derive(Clone, Copy, PartialEq, Eq)]
pub(crate) struct Origin {
    /// Where it begins in the packed file.
    pub(crate) packed: u64,
    /// Where it begins in the raw file.
    pub(crate) raw: u64,
    /// Where in the raw file its payload begins, if it was unpacked.
    pub(crate) payload: Option<u64>,
}

/// Supplies the raw file that the file of the feed below means.
///
/// A frame whose blob holds zlib data and no other is supplied in written form, with its payload raw; every other frame, and what is no
/// whole frame, as it is. So is a frame whose zlib data has a fault: its reader refuses it as `Zlib`, and [`fault`](Self::fault) says
/// why. It holds one frame as it was read and one as it is supplied.
///
/// A read fails if one of the feed below does, and then it goes on with what that feed gives, as it is; or if memory was refused, and then
/// each later one fails too.
#[derive(Drop)]
pub struct UnpackedFeed<F> {
    pub(crate) feed: F,
    pub(crate) inflater: Inflater,
    pub(crate) buffers: Buffers,
    /// How many bytes of those in the buffers were supplied.
    pub(crate) done: usize,
    /// Where in the packed file the frame in the buffers ends.
    pub(crate) place: u64,
    pub(crate) state: FeedState,
    /// The first fault of zlib data.
    pub(crate) fault: Option<UnpackFault>,
    /// How the blobs are stored that were read.
    pub(crate) stored: Stored,
    /// Of the frame in the buffers, and of the first one that is a header.
    pub(crate) origin: Origin,
    pub(crate) header: Option<Origin>,
    ghost in_range: { place ≤ FILE_LIMIT },
    ghost within: { done ≤ vec_len buffers.front + vec_len buffers.raw },
}
