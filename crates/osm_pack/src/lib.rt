//! Entities on their way into a file: cut into blocks, and written block by block.
#![tactic(auto)]

mod frames;
pub mod laws;
mod likeness;
mod open_block;
mod packer;

pub use open_block::MOST_HELD;
pub use packer::Packer;
