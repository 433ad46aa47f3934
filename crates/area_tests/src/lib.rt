//! The tests of `osm_area`, `osm_polygon` and `osm_config`: what no contract says.
#![tactic(auto)]

#[cfg(test)]
mod config;
#[cfg(test)]
mod config_paths;
#[cfg(test)]
mod geojson;
#[cfg(test)]
mod poly_file;
#[cfg(test)]
mod polygon;
