//! A caller of `osm_area`.

use osm_area::Area;

/// Whether an area has the place with latitude and longitude 0.
pub fn has_null_island<A: Area>(area: &A) -> bool {
    area.contains(0, 0)
}
