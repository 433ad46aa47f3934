//! A caller of `osm_polygon`.

use osm_area::Area;
use osm_polygon::{MultiPolygon, PolyError, read_polygons};
use std::alloc::Global;

/// Whether the area of a file with this text, GeoJSON or that of a .poly file, has the place with latitude and longitude 0.
pub fn has_null_island(alloc: Global, text: &str) -> Result<bool, PolyError> {
    let polygons = read_polygons(alloc, text)?;
    let area = MultiPolygon::new(alloc, &polygons)?;
    Ok(area.contains(0, 0))
}
