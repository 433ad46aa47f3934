//! The tests of `pbf_wire`, `pbf_frame` and `pbf_strings`: what no contract says.
#![tactic(auto)]

#[cfg(test)]
mod frame;
#[cfg(test)]
mod strings;
#[cfg(test)]
mod wire;
