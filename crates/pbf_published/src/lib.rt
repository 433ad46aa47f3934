//! A published file, whose blobs are zlib streams: what a call promises of the raw file that a feed gave holds of the raw file that the
//! published one means, and no raw file is written.
#![tactic(auto)]

mod checking;
mod input;
mod running;
mod running_each;
mod showing;
mod traced;

pub use checking::check_with_receipt;
pub use input::{PublishedFeed, PublishedHalt, PublishedInput, close, open};
pub use running::{open_all, run_published};
pub use running_each::{PublishedDigests, run_published_each};
pub use showing::{list_blobs, show_info};
pub use traced::TracedFeed;
