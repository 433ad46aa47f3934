//! The frames of an OpenStreetMap PBF file, read from a device that supplies bytes and written to one that takes them.
#![tactic(auto)]

mod blob;
mod device;
mod frame;
mod frame_parts;
mod header;
pub mod laws;
mod memory;
mod put;
mod reader;
mod std_device;
mod stop;
mod transfer;

pub use blob::{BLOB_KINDS, BZIP2_DATA, LZ4_DATA, LZMA_DATA, RAW, RAW_SIZE, ZLIB_DATA, ZSTD_DATA};
pub use device::{Drain, Feed};
pub use frame::{FILE_LIMIT, Frame, FrameKind, frame_end};
pub use frame_parts::fill_vec;
pub use header::{HEADER_LIMIT, Head, LARGEST_SIZE, read_head};
pub use memory::{Pieces, Sink};
pub use pbf_wire::RAW_LIMIT;
pub use put::{HEAD_ROOM, put_frame, put_frame_head, put_head};
pub use reader::{FrameReader, MOST_BUFFERED};
pub use std_device::{FromRead, ToWrite};
pub use stop::{DrainFault, FeedFault, Stop};
pub use transfer::{write_all, write_both};
