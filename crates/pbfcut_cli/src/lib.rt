//! The command line of pbfcut and pbfcutz: which command it is, what help says, and how each ending is reported.
#![tactic(auto)]

mod commands;
mod config_faults;
mod endings;
mod faults;
mod help;
mod joined;
mod packed;
mod programs;
mod tips;
mod words;

pub use endings::{Ending, line, status};
pub use joined::normalize_words;
pub use packed::PackedRefusal;
pub use programs::Program;
pub use words::{ChoiceFault, CliFault, Command, ConfigFiles, Files, Region, Strategy, read_words};
