//! String tables, read and written. Entities name their texts by index into the table of their block.
#![tactic(auto)]

pub mod laws;
mod table;
mod table_out;

pub use table::{MOST_TEXTS, MOST_USED_TEXTS, TABLE_KINDS, TEXT, Table, text_count};
pub use table_out::TableOut;
