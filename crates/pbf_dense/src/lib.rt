//! Dense nodes: read, judged and written.
#![tactic(auto)]

mod dense;
pub mod dense_info;
mod dense_nodes;
mod dense_out;
mod entries;
mod info;
mod info_out;
mod judge;
pub mod laws;
mod phase;
mod places;
mod take_numbers;
mod take_runs;
mod take_texts;
mod take_users;
mod user_texts;
mod weigh;
mod within;

pub use dense::Dense;
pub use dense_nodes::KEYS_VALS;
pub use dense_out::DenseOut;
pub use phase::Phase;
pub use places::{Place, Places};
pub use weigh::NodesWeight;
pub use within::IdsWithin;
