//! The engine: what pbfcut does with a whole file.
#![tactic(auto)]

mod area_phase;
mod blobs;
mod carrying;
mod choosing_each;
mod choosing_parents_each;
mod converting;
mod copying;
mod extracting;
mod extracting_each;
mod extraction;
pub mod laws;
mod pick;
mod pick_nodes;
mod picker;
mod repeat;
mod showing;
mod smart;
mod sorted;
mod summary;
mod task;
mod wanted;
mod write;
mod writing_each;

pub use blobs::list_blobs;
pub use carrying::{AreaOutput, EachReceipt};
pub use converting::{convert, convert_with_receipt};
pub use copying::copy_with_receipt;
pub use extracting::{
    extract, extract_parents, extract_parents_with_receipt, extract_with_receipt,
};
pub use extracting_each::{EachStrategy, extract_each, extract_parents_each};
pub use extraction::{AllParents, CompleteWays, Smart};
pub use pbf_pass::{
    Counts, Gather, Halt, InputReceipt, Nothing, Pass, Refusal, check, check_with_receipt,
    gather_unjudged, step_count, step_gather, step_nodes, step_relations, step_unjudged, step_ways,
};
pub use pick::{step_pack, step_write, step_write_parents};
pub use showing::{show, show_with_receipt};
pub use smart::extract_smart_with_receipt;
pub use sorted::{
    extract_parents_sorted_with_receipt, extract_sorted, extract_sorted_with_receipt,
};
pub use summary::{Summary, put_counts, put_counts_object, read_summary};
pub use task::{FileTask, PlainTask};
