//! The scale of a block.

ghost use Rattle.std.specs.Prelude.{◌≡◌};
ghost use Rattle.pbf_wire.specs.Faults.{found_in};
ghost use Rattle.pbf_block.specs.Scale.{scale_of};

use crate::primitive_block::{DATE_GRANULARITY, GRANULARITY, LAT_OFFSET, LON_OFFSET};
use osm_entity::Scale;
use pbf_wire::{Message, last_number, low_i32, low_i64};

/// The scale of a block that says nothing of it: coordinates are in 100 nanodegrees and times in 1,000 milliseconds, both
/// counted from 0.
pub const DEFAULT_SCALE: Scale = Scale {
    granularity: 100,
    date_granularity: 1000,
    lat_offset: 0,
    lon_offset: 0,
};

/// The scale of a payload. What it does not say is the default's.
pub(crate) fn scale_in(payload: Message<'_>) -> Scale
    ensures { result ≡ scale_of (found_in payload.entry) }
{
    let last = |number| last_number(payload, number);
    let last_i32 = |number, default| last(number).map_or(default, |last| low_i32(last));
    let last_i64 = |number, default| last(number).map_or(default, |last| low_i64(last));
    Scale {
        granularity: last_i32(GRANULARITY, DEFAULT_SCALE.granularity),
        date_granularity: last_i32(DATE_GRANULARITY, DEFAULT_SCALE.date_granularity),
        lat_offset: last_i64(LAT_OFFSET, DEFAULT_SCALE.lat_offset),
        lon_offset: last_i64(LON_OFFSET, DEFAULT_SCALE.lon_offset),
    }
}
