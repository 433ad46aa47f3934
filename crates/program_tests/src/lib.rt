//! The tests of `pbfcut`, with `pbf_pass`, of `pbfcut_cli` and of `pbfcut_program`: what no contract says.
#![tactic(auto)]

#[cfg(test)]
mod blobs;
#[cfg(test)]
mod check;
#[cfg(test)]
mod config_words;
#[cfg(test)]
mod disk;
#[cfg(test)]
mod extracts;
mod happened;
#[cfg(test)]
mod later_pass;
#[cfg(test)]
mod parts;
#[cfg(test)]
mod recorder;
#[cfg(test)]
mod refused;
#[cfg(test)]
mod runs;
#[cfg(test)]
mod several;
#[cfg(test)]
mod show;
#[cfg(test)]
mod sorted;
#[cfg(test)]
mod steps;
mod tape;
#[cfg(test)]
mod tasks;
#[cfg(test)]
mod words;
#[cfg(test)]
mod writing;
