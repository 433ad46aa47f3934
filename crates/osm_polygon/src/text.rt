//! The text of a polygon: GeoJSON, or a .poly file.

ghost use Rattle.std.specs.Prelude.{◌≡◌, ◌∷◌, [], Ok};
ghost use Rattle.osm_polygon.specs.GeoJson.{and_then};
ghost use Rattle.osm_polygon.specs.PolyFile.{poly_rings};
ghost use Rattle.osm_polygon.specs.Readings.{ReadsPolygons};
ghost use Rattle.osm_polygon.specs.Texts.{is_geojson, polygons_of_text, without_mark};

use crate::fault::PolyError;
use crate::geojson::read_geojson;
use crate::poly_file::read_poly;
use crate::ring::Ring;
use std::alloc::Global;

/// The text after a byte order mark, if it begins with one.
pub fn without_mark(text: &str) -> &str
    ensures { result.now ≡ without_mark text.now }
{
    match text.strip_prefix('\u{feff}') {
        Some(rest) => rest,
        None => text,
    }
}

/// Whether the first character that is no blank is `{`.
fn is_geojson(text: &str) -> bool
    ensures { result ≡ is_geojson text.now }
{
    text.trim_start().starts_with('{')
}

/// The polygon of a .poly file, by its rings.
fn poly_polygon(alloc: Global, text: &str) -> Result<Vec<Vec<Ring>>, PolyError>
    ensures { ReadsPolygons (and_then (poly_rings text.now) (λ rings. Ok (rings ∷ []))) result }
{
    let rings = read_poly(alloc, text)?;
    let mut polygons = Vec::new(alloc);
    polygons.push(rings)?;
    Ok(polygons)
}

/// The polygons of this text, in their order, each by its rings. A byte order mark before the text doesn't matter. The text is GeoJSON if it begins
/// with `{`, after blanks or none, and otherwise that of a .poly file. All rings of a .poly file are one polygon, and a `!` before a ring's name is part of the name.
///
/// # Errors
///
/// `Refused` with the first fault of the text, or `Memory` if memory is refused.
#[tactic(auto, unfolding(crate::specs::Texts::polygons_of_text))]
pub fn read_polygons(alloc: Global, text: &str) -> Result<Vec<Vec<Ring>>, PolyError>
    ensures { ReadsPolygons (polygons_of_text text.now) result }
{
    let text = without_mark(text);
    if is_geojson(text) {
        return read_geojson(alloc, text);
    }
    poly_polygon(alloc, text)
}
