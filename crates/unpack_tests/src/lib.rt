//! The tests of `pbf_unpack`: what no contract says.
#![tactic(auto)]

#[cfg(test)]
mod packing;
#[cfg(test)]
mod tests;
