//! The tests of `osm_entity`, `osm_ids`, `osm_ways` and `osm_text`: what no contract says.
#![tactic(auto)]

#[cfg(test)]
mod entity;
#[cfg(test)]
mod ids;
#[cfg(test)]
mod members;
#[cfg(test)]
mod text;
#[cfg(test)]
mod ways;
