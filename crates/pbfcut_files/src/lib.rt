//! What the program's host does with files and a terminal: IN and OUT, the report of progress, and hints.
#![tactic(auto)]

mod asked;
mod disk;
mod existing;
mod facts;
mod failure;
mod files;
mod formats;
mod hints;
mod left;
mod new_file;
mod output;
mod polygon_text;
mod progress;
mod reasons;
mod replaced;
mod spoiled;

pub use asked::Asked;
pub use disk::sync_name;
pub use existing::{
    Entry, Identity, fault_of_any_file, is_plain, is_taken, plain_file_at, plain_screen,
};
pub use failure::{BROKEN_PIPE, FailedWrite, Target};
pub use files::{is_long, open_input};
pub use hints::{tell_box, tell_empty, tell_form, tell_hint};
pub use left::tell_left;
pub use new_file::{make_file, move_new};
pub use output::{OutStream, open_standard_output};
pub use polygon_text::read_polygon_text;
pub use progress::Watched;
pub use replaced::replaces;
pub use spoiled::{Spoiled, tell_spoiled};
