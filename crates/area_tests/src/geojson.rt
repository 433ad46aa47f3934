//! What no clause says: by example what GeoJSON means, beside the same rings as a .poly file, and each fault.

use osm_polygon::{PolyError, PolyFault, PolyPlace, PolyReason, Ring, read_polygons};
use std::alloc::Global;

/// Two rings.
const POLY: &str =
    "x\n1\n0 0\n9.5 0\n9.5 47.123456789\n0 0\nEND\n2\n-1 -2\n-3 -2\n-3 -5\n-1 -2\nEND\nEND\n";

/// The same as one polygon.
const POLYGON: &str =
    "{\"type\": \"Polygon\", \"coordinates\": [[[0, 0], [9.5, 0.0], [95e-1, 47.1234567891], [0, 0]], [[-1, -2], [-3, -2, 500.5], [-3, -5], [-1, -2]]]}";

/// The same as two.
const POLYGONS: &str =
    " \n\t{\"coordinates\": [[[[0, 0], [9.5, 0], [9.5, 47.123456789], [0, 0]]], [[[-1, -2], [-3, -2], [-3, -5], [-1, -2]]]], \"bbox\": [], \"type\": \"MultiPolygon\"}\n";

/// The same after a byte order mark.
const MARKED: &str =
    "\u{feff}{\"type\": \"Polygon\", \"coordinates\": [[[0, 0], [9.5, 0], [9.5, 47.123456789], [0, 0]], [[-1, -2], [-3, -2], [-3, -5], [-1, -2]]]}";

/// The same as a feature.
const FEATURE: &str =
    "{\"type\": \"Feature\", \"properties\": {\"type\": \"Point\"}, \"geometry\": {\"type\": \"MultiPolygon\", \"coordinates\": [[[[0, 0], [9.5, 0], [9.5, 47.123456789], [0, 0]]], [[[-1, -2], [-3, -2], [-3, -5], [-1, -2]]]]}}";

/// The same as features.
const FEATURES: &str =
    "{\"type\": \"FeatureCollection\", \"features\": [{\"type\": \"Feature\", \"geometry\": {\"type\": \"Polygon\", \"coordinates\": [[[0, 0], [9.5, 0], [9.5, 47.123456789], [0, 0]]]}}, {\"type\": \"Feature\", \"geometry\": {\"type\": \"Polygon\", \"coordinates\": [[[-1, -2], [-3, -2], [-3, -5], [-1, -2]]]}}]}";

/// The same as a collection of geometries.
const GEOMETRIES: &str =
    "{\"type\": \"GeometryCollection\", \"geometries\": [{\"type\": \"Polygon\", \"coordinates\": [[[0, 0], [9.5, 0], [9.5, 47.123456789], [0, 0]]]}, {\"type\": \"Polygon\", \"coordinates\": [[[-1, -2], [-3, -2], [-3, -5], [-1, -2]]]}]}";

/// Whether two rings have the same places.
fn is_same_ring(ring: &Ring, other: &Ring) -> bool {
    if ring.places.len() != other.places.len() {
        return false;
    }
    for (place, beside) in ring.places.iter().zip(other.places.iter()) {
        if place.lat != beside.lat || place.lon != beside.lon {
            return false;
        }
    }
    true
}

/// The two rings of a text that has no more, of one polygon or of two.
fn two_rings(polygons: &[Vec<Ring>], are_apart: bool) -> Option<(&Ring, &Ring)> {
    match (are_apart, polygons) {
        (false, [rings]) => match rings.as_slice() {
            [one, two] => Some((one, two)),
            _ => None,
        },
        (true, [first, second]) => match (first.as_slice(), second.as_slice()) {
            ([one], [two]) => Some((one, two)),
            _ => None,
        },
        _ => None,
    }
}

/// Whether the text has the two rings of `POLY`, in one polygon or in two.
fn has_both(alloc: Global, text: &str, are_apart: bool) -> bool {
    let (Ok(polygons), Ok(others)) = (read_polygons(alloc, POLY), read_polygons(alloc, text)) else {
        return false;
    };
    let Some((one, two)) = two_rings(polygons.as_slice(), false) else {
        return false;
    };
    let Some((three, four)) = two_rings(others.as_slice(), are_apart) else {
        return false;
    };
    is_same_ring(one, three) && is_same_ring(two, four)
}

#[test]
fn the_same_rings_in_each_form(rt: HostRuntime) {
    for text in [POLYGON, MARKED] {
        assert!(rt; has_both(rt.alloc(), text, false), "at {text}");
    }
    for text in [POLYGONS, FEATURE, FEATURES, GEOMETRIES] {
        assert!(rt; has_both(rt.alloc(), text, true), "at {text}");
    }
}

/// Whether the text has this fault.
fn has_fault(alloc: Global, text: &str, place: PolyPlace, reason: PolyReason) -> bool {
    match read_polygons(alloc, text) {
        Err(PolyError::Refused(fault)) => fault == PolyFault { place, reason },
        _ => false,
    }
}

#[test]
fn each_fault_of_the_text(rt: HostRuntime) {
    for (text, reason) in [
        ("{", PolyReason::Json),
        ("{} {}", PolyReason::Json),
        (
            "{\"type\": \"Polygon\", \"coordinates\": [[[00, 0]]]}",
            PolyReason::Json,
        ),
        ("{}", PolyReason::Shape),
        ("{\"type\": \"Polygon\"}", PolyReason::Shape),
        (
            "{\"type\": \"Polygon\", \"coordinates\": {}}",
            PolyReason::Shape,
        ),
        (
            "{\"type\": \"Polygon\", \"coordinates\": [1]}",
            PolyReason::Shape,
        ),
        (
            "{\"type\": \"Point\", \"coordinates\": [1, 1]}",
            PolyReason::Shape,
        ),
        ("{\"type\": [], \"coordinates\": []}", PolyReason::Shape),
        (
            "{\"type\": \"Feature\", \"geometry\": null}",
            PolyReason::Shape,
        ),
        (
            "{\"type\": \"Feature\", \"geometry\": {\"type\": \"Feature\"}}",
            PolyReason::Shape,
        ),
        (
            "{\"type\": \"FeatureCollection\", \"features\": [{\"type\": \"Polygon\"}]}",
            PolyReason::Shape,
        ),
        (
            "{\"type\": \"GeometryCollection\", \"geometries\": [{\"type\": \"GeometryCollection\"}]}",
            PolyReason::Shape,
        ),
        (
            "{\"type\": \"Polygon\", \"coordinates\": []}",
            PolyReason::Empty,
        ),
        (
            "{\"type\": \"MultiPolygon\", \"coordinates\": [[], []]}",
            PolyReason::Empty,
        ),
        (
            "{\"type\": \"FeatureCollection\", \"features\": []}",
            PolyReason::Empty,
        ),
    ] {
        assert!(rt;
            has_fault(rt.alloc(), text, PolyPlace::Text, reason),
            "at {text}"
        );
    }
}

/// Whether a polygon has this fault in its second ring, which is this one. The first is in order.
fn has_ring_fault(alloc: Global, ring: &str, position: usize, reason: PolyReason) -> bool {
    match format!(in alloc;
        "{{\"type\": \"Polygon\", \"coordinates\": [[[0, 0], [1, 0], [1, 1], [0, 0]], {ring}]}}"
    ) {
        Ok(text) => has_fault(alloc, text.as_str(), PolyPlace::Ring(2, position), reason),
        Err(_) => false,
    }
}

#[test]
fn each_fault_of_a_ring(rt: HostRuntime) {
    for (ring, position, reason) in [
        ("[]", 0, PolyReason::Short),
        ("[[0, 0], [1, 0], [0, 0]]", 3, PolyReason::Short),
        ("[[0, 0], [1, 0], [1, 1], [0, 1]]", 4, PolyReason::Open),
        ("[[0, 0], [1, 0], [1, 1], [1, 0]]", 4, PolyReason::Open),
        ("[[0, 0], [1], [1, 1], [0, 0]]", 2, PolyReason::Number),
        (
            "[[0, 0], [\"1\", 0], [1, 1], [0, 0]]",
            2,
            PolyReason::Number,
        ),
        ("[[0, 0], [1, 0], 1, [0, 0]]", 3, PolyReason::Number),
        ("[[0, 0], [1, 0], [1, 1e3], [0, 0]]", 3, PolyReason::Number),
        (
            "[[0, 0], [1, 0], [1, 90.000000001], [0, 0]]",
            3,
            PolyReason::Range,
        ),
        (
            "[[-180.000000001, 0], [1, 0], [1, 1], [0, 0]]",
            1,
            PolyReason::Range,
        ),
        (
            "[[500000.5, 5300000.25], [1, 0], [1, 1], [0, 0]]",
            1,
            PolyReason::Range,
        ),
        (
            "[[170, 0], [-170, 0], [-170, 1], [170, 0]]",
            2,
            PolyReason::Long,
        ),
    ] {
        assert!(rt;
            has_ring_fault(rt.alloc(), ring, position, reason),
            "at {ring}"
        );
    }
}

/// Rings are counted over all polygons.
#[test]
fn rings_of_later_polygons(rt: HostRuntime) {
    let polygons =
        "{\"type\": \"MultiPolygon\", \"coordinates\": [[[[0, 0], [1, 0], [1, 1], [0, 0]], [[0, 0], [1, 0], [1, 1], [0, 0]]], [], [[[0, 0], [1, 0], [1, 1], [0, 0]], [[0, 0], [1, 0], [0, 0]]]]}";
    assert!(rt;
        has_fault(
            rt.alloc(),
            polygons,
            PolyPlace::Ring(4, 3),
            PolyReason::Short
        )
    );
}
