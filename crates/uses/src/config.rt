//! A caller of `osm_config`.

use osm_config::{ConfigError, read_config};
use std::alloc::Global;

/// How many extracts a configuration has.
pub fn extract_count(alloc: Global, text: &str) -> Result<usize, ConfigError> {
    let config = read_config(alloc, text)?;
    Ok(config.extracts.len())
}
