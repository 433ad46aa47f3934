//! A pass over a whole file: it is judged, its entities are counted and gathered, and its bytes are hashed.
#![tactic(auto)]

mod checking;
mod each;
mod each_area;
mod hashed;
mod hashing;
mod header_limit;
mod in_area;
pub mod laws;
mod members;
mod pass;
mod receipt;
mod unjudged;
mod visit;
mod way_strips;

pub use checking::{check, check_with_receipt};
pub use each::Each;
pub use each_area::EachArea;
pub use hashed::{HashedDrain, PassFeed};
pub use hashing::{PassCheck, PassHasher};
pub use header_limit::writable_header;
pub use pass::{
    Gather, Judged, Judging, Nothing, Pass, judge, step_count, step_gather, step_nodes,
    step_relations, step_ways,
};
pub use pbf_block::Counts;
pub use receipt::{Halt, InputReceipt, Passes, Refusal};
pub use unjudged::{Later, gather_unjudged, step_unjudged};
pub use visit::{FileRead, Visit, pass_over, step, visit_rest};
