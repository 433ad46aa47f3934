//! The box of an extract: its edges, its text in degrees, and what lies in it.
#![tactic(auto)]

mod bounding_box;
mod degrees;
pub mod number;

pub use bounding_box::{BoundingBox, BoxFault, MOST_LAT, MOST_LON};
