//! The tests of `zlib` and of `deflate`: what no contract says.
#![tactic(auto)]

#[cfg(test)]
mod packing;
#[cfg(test)]
mod tests;
