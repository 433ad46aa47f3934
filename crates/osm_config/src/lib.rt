//! The configuration of a run that cuts several extracts: a JSON text with a file name and an area for each.
#![tactic(auto)]

mod area;
mod config;
mod extract;
mod fault;
pub mod laws;
mod member;
mod names;
mod outputs;
mod paths;
mod reading;

pub use config::{Config, ConfiguredArea, ConfiguredExtract};
pub use fault::{ConfigError, ConfigFault, ConfigReason};
pub use paths::read_extracts;
pub use reading::read_config;
