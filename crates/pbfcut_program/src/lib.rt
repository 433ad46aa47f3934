//! The program: what a command does to its host, for every host.
#![tactic(auto)]

mod configured;
mod ending;
mod engine;
pub mod file_laws;
mod host;
mod jobs;
pub mod laws;
mod linked;
mod opening;
mod output;
mod printing;
mod program;
mod reading;
mod several;
mod several_files;
mod several_into;
mod several_outs;
mod several_packed;
mod several_writing;
mod writing;

pub use ending::report;
pub use host::{
    CreateFault, FinishFault, Host, NameFault, NotDone, OpenFault, PrintFault, Screen, Seed,
    TextFault, Turn,
};
pub use program::run;
