//! The tests of `pbf_header`, `pbf_dense`, `pbf_block` and `osm_pack`: what no contract says.
#![tactic(auto)]

#[cfg(test)]
mod block;
#[cfg(test)]
mod dense;
#[cfg(test)]
mod header;
#[cfg(test)]
mod pack;
#[cfg(test)]
mod writer;
