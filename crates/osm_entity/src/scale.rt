//! What stored numbers are multiplied with, and counted from.

ghost use Rattle.std.specs.Prelude.{◌≡◌, ◌↔◌, ◌≤◌, ◌≤ℤ◌, ◌^◌, ◌*ℤ◌, ⊤, ℤ, pos, IsTrue, MatchOption, nat_abs};
ghost use Rattle.std.specs.Int.{int_div_euclid};
ghost use Rattle.pbf_wire.specs.Spans.{is_in};
ghost use Rattle.osm_box.specs.BoundingBox.{is_between};
ghost use Rattle.osm_entity.specs.Scale.{nano, nano_lat, nano_lon, millis, ScaleFits};

use pbf_wire::Span;

/// How the stored numbers of a block are meant. Coordinates are stored in units of `granularity` nanodegrees, counted from an
/// offset in nanodegrees, and times in units of `date_granularity` milliseconds.
#[derive(Clone, Copy, Debug, PartialEq, Eq)]
pub struct Scale {
    pub granularity: i32,
    pub date_granularity: i32,
    pub lat_offset: i64,
    pub lon_offset: i64,
}

/// A number of units.
#[tactic(auto, using(crate::proofs::ScaleLemmas::product_small))]
fn scaled(granularity: i32, stored: i64) -> i128
    ensures value { result ≡ granularity *ℤ stored }
    ensures small { nat_abs result ≤ 2 ^ 94 }
{
    i128::from(granularity) * i128::from(stored)
}

/// An offset and a number of units.
fn nano(offset: i64, granularity: i32, stored: i64) -> i128
    ensures { result ≡ nano offset granularity stored }
{
    i128::from(offset) + scaled(granularity, stored)
}

/// Whether a number is at most 2^60 from 0.
fn is_moderate(number: i64) -> bool
    ensures { IsTrue result → nat_abs number ≤ 2 ^ 60 }
{
    number.unsigned_abs() <= 1 << 60
}

/// How many whole units a number has, rounded down.
#[tactic(auto, using(crate::proofs::ScaleLemmas::quotient_small))]
fn whole_units(number: i64, unit: i64) -> i64
    requires { pos 1 ≤ℤ unit }
    ensures value { result ≡ int_div_euclid number unit }
    ensures small { nat_abs result ≤ nat_abs number }
{
    number.div_euclid(unit)
}

/// The stored numbers that mean numbers from `low` to `high`. `None` says nothing: units or numbers are of no usual size.
fn stored_span(offset: i64, granularity: i32, low: i64, high: i64) -> Option<Span>
    ensures { MatchOption result ⊤ (λ span. (stored : ℤ) → is_in span stored
        ≡ is_between low high (nano offset granularity stored)) }
{
    if granularity < 1 || !is_moderate(offset) {
        return None;
    }
    if !is_moderate(low) || !is_moderate(high) {
        return None;
    }
    let unit = i64::from(granularity);
    Some(Span {
        above: whole_units(low - offset - 1, unit),
        below: whole_units(high - offset, unit) + 1,
    })
}

impl Scale {
    /// A stored latitude in nanodegrees.
    pub fn nano_lat(&self, lat: i64) -> i128
        ensures { result ≡ nano_lat self.now lat }
    {
        nano(self.lat_offset, self.granularity, lat)
    }

    /// A stored longitude in nanodegrees.
    pub fn nano_lon(&self, lon: i64) -> i128
        ensures { result ≡ nano_lon self.now lon }
    {
        nano(self.lon_offset, self.granularity, lon)
    }

    /// The stored latitudes from `bottom` to `top`, in nanodegrees. `None` says nothing: units or edges are of no usual size.
    pub fn lat_span(&self, bottom: i64, top: i64) -> Option<Span>
        ensures { MatchOption result ⊤ (λ span. (lat : ℤ) → is_in span lat
            ≡ is_between bottom top (nano_lat self.now lat)) }
    {
        stored_span(self.lat_offset, self.granularity, bottom, top)
    }

    /// The stored longitudes from `left` to `right`, in nanodegrees. `None` says nothing, as there.
    pub fn lon_span(&self, left: i64, right: i64) -> Option<Span>
        ensures { MatchOption result ⊤ (λ span. (lon : ℤ) → is_in span lon
            ≡ is_between left right (nano_lon self.now lon)) }
    {
        stored_span(self.lon_offset, self.granularity, left, right)
    }

    /// A stored time in milliseconds.
    pub fn millis(&self, timestamp: i64) -> i128
        ensures { result ≡ millis self.now timestamp }
    {
        scaled(self.date_granularity, timestamp)
    }

    /// Whether both granularities are at least 1.
    pub fn fits(&self) -> bool
        ensures { IsTrue result ↔ ScaleFits self.now }
    {
        self.granularity >= 1 && self.date_granularity >= 1
    }
}
