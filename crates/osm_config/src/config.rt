//! What a configuration says: the extracts, each with its output file and its area.

use osm_box::BoundingBox;
use osm_polygon::Ring;

/// The area of an extract.
#[derive(Debug, Drop)]
pub enum ConfiguredArea {
    /// This box.
    InBox(BoundingBox),
    /// These polygons, each by its rings.
    InPolygons(Vec<Vec<Ring>>),
    /// The polygons of the file with this name, a .poly or GeoJSON file, which isn't read yet.
    InFile(String),
}

/// An extract.
#[derive(Debug, Drop)]
pub struct ConfiguredExtract {
    /// The name of the output file.
    pub output: String,
    /// The area.
    pub area: ConfiguredArea,
}

/// A configuration.
#[derive(Debug, Drop)]
pub struct Config {
    /// The folder of the output files, if one is named.
    pub directory: Option<String>,
    /// The extracts, one at least. No two have the same output.
    pub extracts: Vec<ConfiguredExtract>,
}
