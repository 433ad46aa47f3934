//! HeaderBlocks: what a file says of itself, judged, read and written.
#![tactic(auto)]

mod header;
mod header_block;
pub mod laws;
mod read;
mod write;

pub use header::{Header, HeaderBox};
pub use write::MOST_HEADER_TEXT;
