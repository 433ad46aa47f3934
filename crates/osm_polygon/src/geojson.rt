//! The polygons of GeoJSON, each with its rings.

ghost use Rattle.std.specs.Prelude.{◌≡◌, Ok, length, map, min};
ghost use Rattle.std.specs.List.{sum_by};
ghost use Rattle.std.specs.Result.{result_map_both};
ghost use Rattle.json.specs.Json.{document};
ghost use Rattle.json.specs.Value.{items_view, value_view};
ghost use Rattle.osm_polygon.specs.Edges.{point_of};
ghost use Rattle.osm_polygon.specs.GeoJson.{and_polygon, fault_after, fold_items, geojson_polygons, if_closed, if_some, is_closed, is_same_place, items_in};
ghost use Rattle.osm_polygon.specs.GeoJson.{geometry_named, geometry_of, member, number_at, position, ring_places};
ghost use Rattle.osm_polygon.specs.GeoJson.{document_by};
ghost use Rattle.osm_polygon.specs.GeoJson.{polygon_coordinates, multi_polygon_coordinates};
ghost use Rattle.osm_polygon.specs.GeoJson.{with_feature, with_geometry, with_polygon, with_position, with_ring, with_shape};
ghost use Rattle.osm_polygon.specs.Readings.{ReadsPlaces, ReadsPolygons, ReadsRings, ReadsText, error_after};
ghost use Rattle.osm_polygon.specs.RingPlaces.{places_of, rings_of};

use crate::fault::{PolyError, PolyFault, PolyPlace, PolyReason, refused};
use crate::number::nanodegrees;
use crate::place::{Place, coordinate};
use crate::ring::{Ring, is_long_to};
use json::{Error, Scratch, Value};
use osm_box::{MOST_LAT, MOST_LON};
use std::alloc::Global;

/// What an object of GeoJSON is.
#[derive(Clone, Copy, Debug, PartialEq, Eq)]
enum GeometryKind {
    Polygon,
    MultiPolygon,
    GeometryCollection,
    Feature,
    FeatureCollection,
    Other,
}

/// The kind with this name.
fn geometry_named(name: &str) -> GeometryKind
    ensures { result ≡ geometry_named name.now }
{
    if name == "Polygon" {
        return GeometryKind::Polygon;
    }
    if name == "MultiPolygon" {
        return GeometryKind::MultiPolygon;
    }
    if name == "GeometryCollection" {
        return GeometryKind::GeometryCollection;
    }
    if name == "Feature" {
        return GeometryKind::Feature;
    }
    if name == "FeatureCollection" {
        return GeometryKind::FeatureCollection;
    }
    GeometryKind::Other
}

/// The kind that its member `type` names.
fn geometry_of(value: &Value<'_>) -> GeometryKind
    ensures { result ≡ geometry_of (value_view value.now) }
{
    let Some(name) = value.get("type") else {
        return GeometryKind::Other;
    };
    match name.as_str() {
        Some(name) => geometry_named(name),
        None => GeometryKind::Other,
    }
}

/// The items of an array.
fn items_in<'v, 'a>(value: &'v Value<'a>) -> Result<&'v Vec<Value<'a>>, PolyError>
    ensures { ReadsText (items_in (value_view value.now))
        (result_map_both (λ items. items_view items.now.items) (λ e. e) result) }
{
    match value {
        Value::Array(items) => Ok(items),
        _ => Err(refused(PolyPlace::Text, PolyReason::Shape)),
    }
}

/// The member of this name.
fn member<'v, 'a>(name: &str, value: &'v Value<'a>) -> Result<&'v Value<'a>, PolyError>
    ensures { ReadsText (member name.now (value_view value.now))
        (result_map_both (λ v. value_view v.now) (λ e. e) result) }
{
    match value.get(name) {
        Some(value) => Ok(value),
        None => Err(refused(PolyPlace::Text, PolyReason::Shape)),
    }
}

/// The nanodegrees of the number at this index of an array.
fn number_at(index: usize, value: &Value<'_>) -> Option<i128>
    ensures { result ≡ number_at index (value_view value.now) }
{
    nanodegrees(value.at(index)?.as_number()?)
}

/// The place of a position.
fn position(value: &Value<'_>) -> Result<Place, PolyReason>
    ensures { result_map_both point_of (λ e. e) result ≡ position (value_view value.now) }
{
    let lon = coordinate(MOST_LON, number_at(0, value))?;
    let lat = coordinate(MOST_LAT, number_at(1, value))?;
    Ok(Place { lat, lon })
}

/// Whether two places are the same.
fn is_same_place(first: &Place, last: &Place) -> bool
    ensures { result ≡ is_same_place (point_of first.now) (point_of last.now) }
{
    first.lat == last.lat && first.lon == last.lon
}

/// Whether the last place is the first one again.
fn is_closed(places: &[Place]) -> bool
    ensures { result ≡ is_closed (map point_of places.now) }
{
    let (Some(first), Some(last)) = (places.first(), places.last()) else {
        return false;
    };
    is_same_place(first, last)
}

/// The places of the ring of this number, if it is whole.
fn if_closed(ring: usize, places: Vec<Place>) -> Result<Vec<Place>, PolyError>
    ensures { ReadsPlaces (if_closed ring (map point_of places.items)) result }
{
    let place = PolyPlace::Ring(ring, places.len());
    if places.len() < 4 {
        return Err(refused(place, PolyReason::Short));
    }
    if !is_closed(places.as_slice()) {
        return Err(refused(place, PolyReason::Open));
    }
    Ok(places)
}

/// The places so far of the ring of this number, and that of a position.
fn with_position(
    ring: usize,
    mut places: Vec<Place>,
    value: &Value<'_>,
) -> Result<Vec<Place>, PolyError>
    ensures { ReadsPlaces
        (with_position ring (map point_of places.items) (value_view value.now)) result }
{
    let number = PolyPlace::Ring(ring, places.len() + 1);
    match position(value) {
        Ok(place) => {
            if is_long_to(places.as_slice(), place) {
                return Err(refused(number, PolyReason::Long));
            }
            places.push(place)?;
            Ok(places)
        }
        Err(reason) => Err(refused(number, reason)),
    }
}

/// The places of the ring of this number, which has these positions.
fn ring_places(alloc: Global, ring: usize, items: &Vec<Value<'_>>) -> Result<Vec<Place>, PolyError>
    ensures { ReadsPlaces (ring_places ring (items_view items.now.items)) result }
{
    let mut places = Vec::new(alloc);
    for item in items {
        places = with_position(ring, places, item)?;
    }
    if_closed(ring, places)
}

/// The rings, and this one.
fn with_ring(alloc: Global, mut rings: Vec<Ring>, value: &Value<'_>) -> Result<Vec<Ring>, PolyError>
    ensures { ReadsRings (with_ring (map places_of rings.items) (value_view value.now)) result }
{
    let items = items_in(value)?;
    let places = ring_places(alloc, rings.len() + 1, items)?;
    rings.push(Ring { places })?;
    Ok(rings)
}

/// The rings, and those of a polygon, of which these are the coordinates.
fn with_rings(
    alloc: Global,
    mut rings: Vec<Ring>,
    value: &Value<'_>,
) -> Result<Vec<Ring>, PolyError>
    ensures { ReadsRings
        (fold_items with_ring (map places_of rings.items) (value_view value.now)) result }
{
    for item in items_in(value)? {
        rings = with_ring(alloc, rings, item)?;
    }
    Ok(rings)
}

/// The same fault, if so many rings come before those of its polygon.
fn fault_after(before: usize, fault: PolyFault) -> PolyFault
    ensures { result ≡ fault_after before fault }
{
    let place = match fault.place {
        PolyPlace::Ring(ring, position) => PolyPlace::Ring(before.saturating_add(ring), position),
        place => place,
    };
    PolyFault {
        place,
        reason: fault.reason,
    }
}

/// How many rings polygons have together.
fn ring_count(polygons: &[Vec<Ring>]) -> usize
    ensures { result ≡ min (sum_by length (map rings_of polygons.now)) 18446744073709551615 }
{
    let mut count = 0usize;
    let mut rest = polygons;
    'polygons: while let Some((rings, more)) = rest.split_first() {
        count = count.saturating_add(rings.len());
        rest = more;
    }
    count
}

/// Why a polygon can't be read, which comes after these.
fn error_after(polygons: &[Vec<Ring>], error: PolyError) -> PolyError
    ensures { result ≡ error_after (sum_by length (map rings_of polygons.now)) error }
{
    match error {
        PolyError::Refused(fault) => {
            PolyError::Refused(fault_after(ring_count(polygons), fault))
        }
        PolyError::Memory => PolyError::Memory,
    }
}

/// The polygons, and one with these rings, if it has any.
fn and_polygon(mut polygons: Vec<Vec<Ring>>, rings: Vec<Ring>) -> Result<Vec<Vec<Ring>>, PolyError>
    ensures { ReadsPolygons
        (Ok (and_polygon (map rings_of polygons.items) (rings_of rings))) result }
{
    if !rings.is_empty() {
        polygons.push(rings)?;
    }
    Ok(polygons)
}

/// The polygons, and the one with these coordinates.
fn with_polygon(
    alloc: Global,
    polygons: Vec<Vec<Ring>>,
    value: &Value<'_>,
) -> Result<Vec<Vec<Ring>>, PolyError>
    ensures { ReadsPolygons
        (with_polygon (map rings_of polygons.items) (value_view value.now)) result }
{
    match with_rings(alloc, Vec::new(alloc), value) {
        Ok(rings) => and_polygon(polygons, rings),
        Err(error) => Err(error_after(polygons.as_slice(), error)),
    }
}

/// The polygons, and those with these coordinates.
fn with_polygons(
    alloc: Global,
    mut polygons: Vec<Vec<Ring>>,
    value: &Value<'_>,
) -> Result<Vec<Vec<Ring>>, PolyError>
    ensures { ReadsPolygons
        (fold_items with_polygon (map rings_of polygons.items) (value_view value.now)) result }
{
    for item in items_in(value)? {
        polygons = with_polygon(alloc, polygons, item)?;
    }
    Ok(polygons)
}

/// The polygons, and those of a geometry that is no collection.
fn with_shape(
    alloc: Global,
    polygons: Vec<Vec<Ring>>,
    value: &Value<'_>,
) -> Result<Vec<Vec<Ring>>, PolyError>
    ensures { ReadsPolygons
        (with_shape (map rings_of polygons.items) (value_view value.now)) result }
{
    match geometry_of(value) {
        GeometryKind::Polygon => with_polygon(alloc, polygons, member("coordinates", value)?),
        GeometryKind::MultiPolygon => with_polygons(alloc, polygons, member("coordinates", value)?),
        _ => Err(refused(PolyPlace::Text, PolyReason::Shape)),
    }
}

/// The polygons, and those of geometries that are no collections.
fn with_shapes(
    alloc: Global,
    mut polygons: Vec<Vec<Ring>>,
    value: &Value<'_>,
) -> Result<Vec<Vec<Ring>>, PolyError>
    ensures { ReadsPolygons
        (fold_items with_shape (map rings_of polygons.items) (value_view value.now)) result }
{
    for item in items_in(value)? {
        polygons = with_shape(alloc, polygons, item)?;
    }
    Ok(polygons)
}

/// The polygons, and those of a geometry.
fn with_geometry(
    alloc: Global,
    polygons: Vec<Vec<Ring>>,
    value: &Value<'_>,
) -> Result<Vec<Vec<Ring>>, PolyError>
    ensures { ReadsPolygons
        (with_geometry (map rings_of polygons.items) (value_view value.now)) result }
{
    match geometry_of(value) {
        GeometryKind::GeometryCollection => with_shapes(
            alloc,
            polygons,
            member("geometries", value)?,
        ),
        _ => with_shape(alloc, polygons, value),
    }
}

/// The polygons, and those of a feature.
fn with_feature(
    alloc: Global,
    polygons: Vec<Vec<Ring>>,
    value: &Value<'_>,
) -> Result<Vec<Vec<Ring>>, PolyError>
    ensures { ReadsPolygons
        (with_feature (map rings_of polygons.items) (value_view value.now)) result }
{
    match geometry_of(value) {
        GeometryKind::Feature => with_geometry(alloc, polygons, member("geometry", value)?),
        _ => Err(refused(PolyPlace::Text, PolyReason::Shape)),
    }
}

/// The polygons, and those of features.
fn with_features(
    alloc: Global,
    mut polygons: Vec<Vec<Ring>>,
    value: &Value<'_>,
) -> Result<Vec<Vec<Ring>>, PolyError>
    ensures { ReadsPolygons
        (fold_items with_feature (map rings_of polygons.items) (value_view value.now)) result }
{
    for item in items_in(value)? {
        polygons = with_feature(alloc, polygons, item)?;
    }
    Ok(polygons)
}

/// The polygons of all that the text has.
fn polygons_in(alloc: Global, value: &Value<'_>) -> Result<Vec<Vec<Ring>>, PolyError>
    ensures { ReadsPolygons
        (document_by (geometry_of (value_view value.now)) (value_view value.now)) result }
{
    let polygons = Vec::new(alloc);
    match geometry_of(value) {
        GeometryKind::FeatureCollection => with_features(
            alloc,
            polygons,
            member("features", value)?,
        ),
        GeometryKind::Feature => with_feature(alloc, polygons, value),
        _ => with_geometry(alloc, polygons, value),
    }
}

/// The polygons, if there is one.
fn if_some(polygons: Vec<Vec<Ring>>) -> Result<Vec<Vec<Ring>>, PolyError>
    ensures { ReadsPolygons (if_some (map rings_of polygons.items)) result }
{
    if polygons.is_empty() {
        return Err(refused(PolyPlace::Text, PolyReason::Empty));
    }
    Ok(polygons)
}

/// The polygon with these coordinates, which are a JSON value as a Polygon of GeoJSON has them.
///
/// # Errors
///
/// `Refused` with the first fault, or `Memory` if memory is refused.
pub fn read_polygon_coordinates(
    alloc: Global,
    value: &Value<'_>,
) -> Result<Vec<Vec<Ring>>, PolyError>
    ensures { ReadsPolygons (polygon_coordinates (value_view value.now)) result }
{
    let polygons = with_polygon(alloc, Vec::new(alloc), value)?;
    if_some(polygons)
}

/// The polygons with these coordinates, which are a JSON value as a MultiPolygon of GeoJSON has them.
///
/// # Errors
///
/// `Refused` with the first fault, or `Memory` if memory is refused.
pub fn read_multi_polygon_coordinates(
    alloc: Global,
    value: &Value<'_>,
) -> Result<Vec<Vec<Ring>>, PolyError>
    ensures { ReadsPolygons (multi_polygon_coordinates (value_view value.now)) result }
{
    let polygons = with_polygons(alloc, Vec::new(alloc), value)?;
    if_some(polygons)
}

/// The polygons of a text of GeoJSON.
pub(crate) fn read_geojson(alloc: Global, text: &str) -> Result<Vec<Vec<Ring>>, PolyError>
    ensures { ReadsPolygons (geojson_polygons (document text.now)) result }
{
    let mut scratch = Scratch::new(alloc);
    match Value::parse(alloc, text, &mut scratch) {
        Ok(value) => if_some(polygons_in(alloc, &value)?),
        Err(Error::OutOfMemory) => Err(PolyError::Memory),
        Err(_) => Err(refused(PolyPlace::Text, PolyReason::Json)),
    }
}
