//! A caller of `osm_box`.

use osm_box::{BoundingBox, BoxFault};

/// Whether the box of this text has the place with latitude and longitude 0.
pub fn has_null_island(text: &str) -> Result<bool, BoxFault> {
    let area = BoundingBox::parse(text)?;
    Ok(area.contains(0, 0))
}
