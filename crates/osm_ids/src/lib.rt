//! Sets of ids, gathered and then looked up, and links between ids that are followed to the end. It knows nothing of what the
//! ids name.
#![tactic(auto)]

mod id_runs;
mod index;
pub mod laws;
mod links;
mod page;
mod pages;
mod set;
mod strips;
mod walk;
mod window;

pub use links::{Link, Links};
pub use pages::SealedIds;
pub use set::IdSet;
pub use strips::IdStrips;
pub use window::{IdLookup, Window};
