//! The area of an extract: a box, inline polygons, or a file with polygons.

ghost use Rattle.std.specs.Prelude.{◌≡◌, IfOk, option_map};
ghost use Rattle.std.specs.String.{string_bytes};
ghost use Rattle.json.specs.Value.{value_view};
ghost use Rattle.osm_config.specs.Areas.{area_in, box_of_json, edge_at, edge_in, edge_named, edges_in, edges_of_items, edges_of_members};
ghost use Rattle.osm_config.specs.Areas.{file_in, is_polygon_type, multi_polygon_in, polygon_in, with_commas};
ghost use Rattle.osm_config.specs.Readings.{ReadsArea, ReadsEdges, ReadsString};
ghost use Rattle.osm_config.specs.Edges.{edge_parts};

use crate::config::ConfiguredArea;
use crate::fault::{ConfigReason, ConfigStop};
use crate::member::{file_name_in, optional_string, required};
use crate::names::{ConfigObject, judge_object};
use json::Value;
use osm_box::BoundingBox;
use osm_polygon::{PolyError, read_multi_polygon_coordinates, read_polygon_coordinates};
use std::alloc::{AllocError, Global};

/// The edges of a box, each by its text.
#[derive(Clone, Copy)]
struct EdgeTexts<'v> {
    left: &'v str,
    bottom: &'v str,
    right: &'v str,
    top: &'v str,
}

/// The text of a number in `bbox`.
fn edge_in<'v, 'a>(extract: usize, value: &'v Value<'a>) -> Result<&'v str, ConfigStop<'v>>
    ensures { ReadsString (edge_in extract (value_view value.now)) result }
{
    match value.as_number() {
        Some(number) => Ok(number),
        None => Err(ConfigStop::Refused(extract, "bbox", ConfigReason::Shape)),
    }
}

/// The text of the number at this index of a list.
fn edge_at<'v, 'a>(
    extract: usize,
    index: usize,
    value: &'v Value<'a>,
) -> Result<&'v str, ConfigStop<'v>>
    ensures { ReadsString (edge_at extract index (value_view value.now)) result }
{
    match value.at(index) {
        Some(edge) => edge_in(extract, edge),
        None => Err(ConfigStop::Refused(extract, "bbox", ConfigReason::Shape)),
    }
}

/// The edges in a list, which has four.
fn edges_of_items<'v, 'a>(
    extract: usize,
    value: &'v Value<'a>,
) -> Result<EdgeTexts<'v>, ConfigStop<'v>>
    ensures { ReadsEdges (edges_of_items extract (value_view value.now)) result }
{
    let None = value.at(4) else {
        return Err(ConfigStop::Refused(extract, "bbox", ConfigReason::Shape));
    };
    let left = edge_at(extract, 0, value)?;
    let bottom = edge_at(extract, 1, value)?;
    let right = edge_at(extract, 2, value)?;
    let top = edge_at(extract, 3, value)?;
    Ok(EdgeTexts {
        left,
        bottom,
        right,
        top,
    })
}

/// The text of the edge in the member of this name.
fn edge_named<'v, 'a>(
    extract: usize,
    name: &'v str,
    value: &'v Value<'a>,
) -> Result<&'v str, ConfigStop<'v>>
    ensures { ReadsString (edge_named extract name.now (value_view value.now)) result }
{
    edge_in(extract, required(extract, name, value)?)
}

/// The edges in an object, each by its name.
fn edges_of_members<'v, 'a>(
    alloc: Global,
    extract: usize,
    value: &'v Value<'a>,
) -> Result<EdgeTexts<'v>, ConfigStop<'v>>
    ensures { ReadsEdges (edges_of_members extract (value_view value.now)) result }
{
    judge_object(alloc, extract, "bbox", ConfigObject::Edges, value)?;
    let left = edge_named(extract, "left", value)?;
    let bottom = edge_named(extract, "bottom", value)?;
    let right = edge_named(extract, "right", value)?;
    let top = edge_named(extract, "top", value)?;
    Ok(EdgeTexts {
        left,
        bottom,
        right,
        top,
    })
}

/// The edges in `bbox`.
fn edges_in<'v, 'a>(
    alloc: Global,
    extract: usize,
    value: &'v Value<'a>,
) -> Result<EdgeTexts<'v>, ConfigStop<'v>>
    ensures { ReadsEdges (edges_in extract (value_view value.now)) result }
{
    match value {
        Value::Array(_) => edges_of_items(extract, value),
        _ => edges_of_members(alloc, extract, value),
    }
}

/// The edges as one text, as a command line has them.
fn with_commas(alloc: Global, edges: &EdgeTexts<'_>) -> Result<String, AllocError>
    ensures { IfOk result (λ text. string_bytes text ≡ with_commas (edge_parts edges.now)) }
{
    let mut text = String::from_str(alloc, edges.left)?;
    text.push_str(",")?;
    text.push_str(edges.bottom)?;
    text.push_str(",")?;
    text.push_str(edges.right)?;
    text.push_str(",")?;
    text.push_str(edges.top)?;
    Ok(text)
}

/// The box in `bbox`.
fn bounds_in<'v, 'a>(
    alloc: Global,
    extract: usize,
    value: &'v Value<'a>,
) -> Result<ConfiguredArea, ConfigStop<'v>>
    ensures { ReadsArea (box_of_json extract (value_view value.now)) result }
{
    let edges = edges_in(alloc, extract, value)?;
    let text = with_commas(alloc, &edges)?;
    match BoundingBox::parse(text.as_str()) {
        Ok(bounds) => Ok(ConfiguredArea::InBox(bounds)),
        Err(wrong) => Err(ConfigStop::Refused(extract, "bbox", ConfigReason::BadBox(wrong))),
    }
}

/// Whether a file of this type can be read. Without a type the text says which it is.
fn is_polygon_type(name: Option<&str>) -> bool
    ensures { result ≡ is_polygon_type (option_map (λ s. s.now) name.entry) }
{
    match name {
        Some(name) => name == "poly" || name == "geojson",
        None => true,
    }
}

/// The file that an object names, which is the value of the member of this name.
fn file_in<'v, 'a>(
    alloc: Global,
    extract: usize,
    name: &'v str,
    value: &'v Value<'a>,
) -> Result<ConfiguredArea, ConfigStop<'v>>
    ensures { ReadsArea (file_in extract name.now (value_view value.now)) result }
{
    judge_object(alloc, extract, name, ConfigObject::File, value)?;
    let file = file_name_in(extract, "file_name", value)?;
    let kind = optional_string(extract, "file_type", value)?;
    if !is_polygon_type(kind) {
        return Err(ConfigStop::Refused(extract, "file_type", ConfigReason::FileType));
    }
    let file = String::from_str(alloc, file)?;
    Ok(ConfiguredArea::InFile(file))
}

/// The polygon in `polygon`.
fn polygon_in<'v, 'a>(
    alloc: Global,
    extract: usize,
    value: &'v Value<'a>,
) -> Result<ConfiguredArea, ConfigStop<'v>>
    ensures { ReadsArea (polygon_in extract (value_view value.now)) result }
{
    let Value::Array(_) = value else {
        return file_in(alloc, extract, "polygon", value);
    };
    match read_polygon_coordinates(alloc, value) {
        Ok(polygons) => Ok(ConfiguredArea::InPolygons(polygons)),
        Err(PolyError::Refused(wrong)) => Err(ConfigStop::Refused(
            extract,
            "polygon",
            ConfigReason::BadPolygon(wrong),
        )),
        Err(PolyError::Memory) => Err(ConfigStop::Memory),
    }
}

/// The polygons in `multipolygon`.
fn multi_polygon_in<'v, 'a>(
    alloc: Global,
    extract: usize,
    value: &'v Value<'a>,
) -> Result<ConfiguredArea, ConfigStop<'v>>
    ensures { ReadsArea (multi_polygon_in extract (value_view value.now)) result }
{
    let Value::Array(_) = value else {
        return file_in(alloc, extract, "multipolygon", value);
    };
    match read_multi_polygon_coordinates(alloc, value) {
        Ok(polygons) => Ok(ConfiguredArea::InPolygons(polygons)),
        Err(PolyError::Refused(wrong)) => Err(ConfigStop::Refused(
            extract,
            "multipolygon",
            ConfigReason::BadPolygon(wrong),
        )),
        Err(PolyError::Memory) => Err(ConfigStop::Memory),
    }
}

/// The area of an extract, which has exactly one.
pub(crate) fn area_in<'v, 'a>(
    alloc: Global,
    extract: usize,
    value: &'v Value<'a>,
) -> Result<ConfiguredArea, ConfigStop<'v>>
    ensures { ReadsArea (area_in extract (value_view value.now)) result }
{
    match (
        value.get("bbox"),
        value.get("polygon"),
        value.get("multipolygon"),
    ) {
        (Some(value), None, None) => bounds_in(alloc, extract, value),
        (None, Some(value), None) => polygon_in(alloc, extract, value),
        (None, None, Some(value)) => multi_polygon_in(alloc, extract, value),
        _ => Err(ConfigStop::Refused(extract, "", ConfigReason::Area)),
    }
}
