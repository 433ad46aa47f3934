//! OpenStreetMap PBF files with zlib blobs: read as the raw files that they mean, and made of them.
#![tactic(auto)]

mod below;
mod blob;
mod buffers;
mod drain;
mod fault;
mod feed;
mod frame;
pub mod laws;
mod origin;
mod packer;
mod payload;
mod reports;
mod stored;
mod supply;
mod unpack;
mod whole;

pub use deflate::Deflater;
pub use drain::PackedDrain;
pub use fault::{UnpackFault, UnpackReason};
pub use feed::UnpackedFeed;
pub use reports::{DigestFeed, Place};
pub use stored::Stored;
pub use zlib::{InflateFault, Inflater};
