//! PrimitiveBlocks: judged, read and written.
#![tactic(auto)]

mod block;
mod block_write;
mod counts;
mod entities;
mod entity;
mod entity_out;
mod entity_write;
mod group;
mod info;
mod kinds;
pub mod laws;
mod members;
mod node;
mod plain;
mod primitive_block;
mod ranges;
mod relation;
mod runs;
mod scale;
mod unjudged;
mod unmade;
mod way;

pub use block::Block;
pub use block_write::{MOST_ENTITIES, put_block, put_dense};
pub use counts::Counts;
pub use entities::Entities;
pub use entity_out::EntityOut;
pub use kinds::Kinds;
pub use pbf_header::{Header, HeaderBox, MOST_HEADER_TEXT};
pub use runs::{Run, Runs};
pub use scale::DEFAULT_SCALE;
pub use unjudged::UnjudgedBlock;
pub use unmade::Unmade;
