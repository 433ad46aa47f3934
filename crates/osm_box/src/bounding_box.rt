//! The box of an extract.

ghost use Rattle.std.specs.Prelude.{◌≡◌, ◌≤ℤ◌, ◌&&◌, pos};
ghost use Rattle.osm_box.specs.BoundingBox.{box_of_edges, box_of_ordered, is_between, is_up_to, is_inside, is_box_within};
ghost use Rattle.osm_box.specs.Degrees.{box_of_numbers, box_of_text};

use crate::degrees::{Parts, degrees};
use thiserror::Error;

/// The greatest longitude, 180 degrees, in nanodegrees.
pub const MOST_LON: i64 = 180_000_000_000;

/// The greatest latitude, 90 degrees, in nanodegrees.
pub const MOST_LAT: i64 = 90_000_000_000;

/// A box between four edges in nanodegrees. The edges belong to it.
#[derive(Clone, Copy, Debug, PartialEq, Eq)]
pub struct BoundingBox {
    pub left: i64,
    pub bottom: i64,
    pub right: i64,
    pub top: i64,
}

/// What is wrong with a box. Of several faults the one with the least number is returned. Each is printed by its name.
#[derive(Clone, Copy, Debug, PartialEq, Eq, Error)]
pub enum BoxFault {
    /// 1: there aren't exactly three commas.
    #[error("Shape")]
    Shape,
    /// 2: a part isn't an optional `-`, one to three digits and, by choice, `.` with one to nine digits.
    #[error("Digit")]
    Digit,
    /// 3: a longitude is outside -180 to 180 degrees, or a latitude outside -90 to 90.
    #[error("Range")]
    Range,
    /// 4: the left edge is greater than the right one. No box crosses the antimeridian.
    #[error("LeftOverRight")]
    LeftOverRight,
    /// 5: the bottom edge is greater than the top one.
    #[error("BottomOverTop")]
    BottomOverTop,
}

/// Whether the number is from `-limit` to `limit`.
#[tactic(auto, unfolding(crate::specs::BoundingBox::is_up_to))]
fn is_up_to(limit: i64, number: i64) -> bool
    requires { pos 0 ≤ℤ limit }
    ensures { result ≡ is_up_to limit number }
{
    -limit <= number && number <= limit
}

/// Whether both edges are from `-limit` to `limit`.
fn are_up_to(limit: i64, low: i64, high: i64) -> bool
    requires { pos 0 ≤ℤ limit }
    ensures { result ≡ (is_up_to limit low && is_up_to limit high) }
{
    is_up_to(limit, low) && is_up_to(limit, high)
}

/// The box of these edges, each in its range.
fn ordered(left: i64, bottom: i64, right: i64, top: i64) -> Result<BoundingBox, BoxFault>
    ensures { result ≡ box_of_ordered left bottom right top }
{
    if left > right {
        return Err(BoxFault::LeftOverRight);
    }
    if bottom > top {
        return Err(BoxFault::BottomOverTop);
    }
    Ok(BoundingBox {
        left,
        bottom,
        right,
        top,
    })
}

/// The box of these edges, if each is a number.
fn of_numbers(
    left: Option<i64>,
    bottom: Option<i64>,
    right: Option<i64>,
    top: Option<i64>,
) -> Result<BoundingBox, BoxFault>
    ensures { result ≡ box_of_numbers left bottom right top }
{
    match (left, bottom, right, top) {
        (Some(left), Some(bottom), Some(right), Some(top)) => {
            BoundingBox::new(left, bottom, right, top)
        }
        _ => Err(BoxFault::Digit),
    }
}

impl BoundingBox {
    /// The box of these edges in nanodegrees.
    ///
    /// # Errors
    ///
    /// `Range`, `LeftOverRight` or `BottomOverTop`, the first of these that holds.
    pub fn new(left: i64, bottom: i64, right: i64, top: i64) -> Result<BoundingBox, BoxFault>
        ensures { result ≡ box_of_edges left bottom right top }
    {
        if !are_up_to(MOST_LON, left, right) {
            return Err(BoxFault::Range);
        }
        if !are_up_to(MOST_LAT, bottom, top) {
            return Err(BoxFault::Range);
        }
        ordered(left, bottom, right, top)
    }

    /// The box of a text `left,bottom,right,top` in degrees, such as `-0.5,51.25,0.3,51.7`.
    ///
    /// # Errors
    ///
    /// The fault with the least number.
    #[tactic(auto, unfolding(crate::specs::Degrees::box_of_text))]
    pub fn parse(text: &str) -> Result<BoundingBox, BoxFault>
        ensures { result ≡ box_of_text text.now }
    {
        let Some(parts) = Parts::of(text) else {
            return Err(BoxFault::Shape);
        };
        of_numbers(
            degrees(parts.left),
            degrees(parts.bottom),
            degrees(parts.right),
            degrees(parts.top),
        )
    }

    fn spans_lat(&self, lat: i128) -> bool
        ensures { result ≡ is_between self.now.bottom self.now.top lat }
    {
        i128::from(self.bottom) <= lat && lat <= i128::from(self.top)
    }

    fn spans_lon(&self, lon: i128) -> bool
        ensures { result ≡ is_between self.now.left self.now.right lon }
    {
        i128::from(self.left) <= lon && lon <= i128::from(self.right)
    }

    /// Whether the place, in nanodegrees, is in the box or on one of its edges.
    pub fn contains(&self, lat: i128, lon: i128) -> bool
        ensures { result ≡ is_inside self.now lat lon }
    {
        self.spans_lat(lat) && self.spans_lon(lon)
    }

    fn has_corner(&self, lat: i64, lon: i64) -> bool
        ensures { result ≡ is_inside self.now lat lon }
    {
        self.contains(i128::from(lat), i128::from(lon))
    }

    /// Whether this box lies in the other one. They may have edges in common: each box lies in itself.
    pub fn is_within(&self, other: &BoundingBox) -> bool
        ensures { result ≡ is_box_within self.now other.now }
    {
        other.has_corner(self.bottom, self.left) && other.has_corner(self.top, self.right)
    }
}
