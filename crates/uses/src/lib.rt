//! Callers: the example of each crate's README.md, to the letter, and proved.
#![tactic(auto)]

pub mod any_area;
pub mod area;
pub mod block;
pub mod config;
pub mod dense;
pub mod engine;
pub mod entity;
pub mod frame;
pub mod header;
pub mod ids;
pub mod pack;
pub mod pass;
pub mod polygon;
pub mod published;
pub mod strings;
pub mod text;
pub mod unpack;
pub mod ways;
pub mod wire;
pub mod words;
