//! What a file holds, as text: the lines of a header and of an entity, a header in JSON, texts in quotation marks, numbers, times.
//! It appends to a vector of bytes, and knows nothing of files, frames and devices.
#![tactic(auto)]

mod dates;
mod digests;
mod entity_text;
mod header_json;
mod header_text;
mod number;
mod quoted;

pub use digests::{put_digest_line, put_hex};
pub use entity_text::put_entity;
pub use header_json::put_header_members;
pub use header_text::put_header;
pub use number::put_number;
pub use quoted::put_quoted;
