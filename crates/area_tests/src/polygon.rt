//! What no clause says: that the calls succeed if there is memory, and by example which places some polygons have.
//!
//! Refused memory is tried by hand, by `rt try --test --fail-alloc N`: each call then fails, and no test passes that should not.

use osm_area::Area;
use osm_box::BoundingBox;
use osm_polygon::{MultiPolygon, Place, Polygon, Ring, read_polygons};
use std::alloc::{AllocError, Global};
use std::test::Fail;

const SQUARE: &str = "x\n1\n1 1\n2 1\n2 2\n1 2\nEND\nEND\n";

/// A square with a corner at the bottom.
const DIAMOND: &str = "x\n1\n1.5 1\n2 1.5\n1.5 2\n1 1.5\nEND\nEND\n";

/// A square of three degrees, and one of one degree within it.
const HOLE: &str = "x\n1\n0 0\n3 0\n3 3\n0 3\nEND\n!2\n1 1\n2 1\n2 2\n1 2\nEND\nEND\n";

/// The same two rings, each the other way round, in the other order and with other names.
const TURNED: &str = "x\n1\n1 2\n2 2\n2 1\n1 1\nEND\n2\n0 3\n3 3\n3 0\n0 0\nEND\nEND\n";

/// Two squares of two degrees, which have one of one degree in common.
const OVERLAPPING: &str = "x\n1\n0 0\n2 0\n2 2\n0 2\nEND\n2\n1 1\n3 1\n3 3\n1 3\nEND\nEND\n";

/// Two squares beside each other. The name of the second begins with a `!`.
const APART: &str = "x\n1\n0 0\n1 0\n1 1\n0 1\nEND\n!2\n2 0\n3 0\n3 1\n2 1\nEND\nEND\n";

/// A ring that crosses itself at 1.5 and 1.5 degrees.
const BOW: &str = "x\n1\n1 1\n2 2\n2 1\n1 2\nEND\nEND\n";

/// A square whose ring ends with its first place, and in which another place comes twice.
const CLOSED: &str = "x\n1\n1 1\n2 1\n2 1\n2 2\n1 2\n1 1\nEND\nEND\n";

/// A ring of one place.
const POINT: &str = "x\n1\n1 1\n1 1\n1 1\nEND\nEND\n";

/// The whole earth.
const EARTH: &str = "x\n1\n-180 -90\n180 -90\n180 90\n-180 90\nEND\nEND\n";

/// The area of a text, if it has one.
fn polygon_of(alloc: Global, text: &str) -> Option<MultiPolygon> {
    let polygons = read_polygons(alloc, text).ok()?;
    MultiPolygon::new(alloc, &polygons).ok()
}

/// Whether the polygon has the place with these tenths of degrees.
fn has_place(polygon: &MultiPolygon, lat: i32, lon: i32) -> bool {
    polygon.contains(i128::from(lat) * 100_000_000, i128::from(lon) * 100_000_000)
}

/// Whether the polygon of a text has all of these places, or none of them.
fn has_all(alloc: Global, text: &str, places: &[(i32, i32)], expected: bool) -> bool {
    let Some(polygon) = polygon_of(alloc, text) else {
        return false;
    };
    for (lat, lon) in places {
        if has_place(&polygon, *lat, *lon) != expected {
            return false;
        }
    }
    true
}

/// Whether the polygon of a text has the same of these places as the box, and the same bounds.
fn is_box(alloc: Global, text: &str, area: BoundingBox) -> bool {
    let Some(polygon) = polygon_of(alloc, text) else {
        return false;
    };
    for lat in 5i32..25i32 {
        for lon in 5i32..25i32 {
            let in_box = area.contains(
                i128::from(lat) * 100_000_000,
                i128::from(lon) * 100_000_000,
            );
            if has_place(&polygon, lat, lon) != in_box {
                return false;
            }
        }
    }
    polygon.bounds() == area && polygon.as_box().is_none()
}

/// Whether both texts have polygons with the same of these places.
fn are_alike(alloc: Global, text: &str, other: &str) -> bool {
    let Some(polygon) = polygon_of(alloc, text) else {
        return false;
    };
    let Some(other) = polygon_of(alloc, other) else {
        return false;
    };
    for lat in -5i32..35i32 {
        for lon in -5i32..35i32 {
            if has_place(&polygon, lat, lon) != has_place(&other, lat, lon) {
                return false;
            }
        }
    }
    true
}

#[test]
fn a_square_and_its_box(rt: HostRuntime) {
    let area = BoundingBox {
        left: 1_000_000_000,
        bottom: 1_000_000_000,
        right: 2_000_000_000,
        top: 2_000_000_000,
    };
    assert!(rt; is_box(rt.alloc(), SQUARE, area));
    assert!(rt; is_box(rt.alloc(), CLOSED, area));
}

#[test]
fn corners_and_edges(rt: HostRuntime) {
    assert!(rt;
        has_all(
            rt.alloc(),
            SQUARE,
            &[(10, 10), (10, 20), (20, 10), (20, 20)],
            true
        )
    );
    assert!(rt;
        has_all(
            rt.alloc(),
            SQUARE,
            &[(10, 15), (20, 15), (15, 10), (15, 20)],
            true
        )
    );
    assert!(rt;
        has_all(
            rt.alloc(),
            DIAMOND,
            &[(10, 15), (20, 15), (15, 10), (15, 20)],
            true
        )
    );
    assert!(rt;
        has_all(
            rt.alloc(),
            DIAMOND,
            &[(12, 13), (12, 17), (18, 13), (18, 17)],
            true
        )
    );
}

/// Rays from the west through a corner, through two, and along an edge.
#[test]
fn rays_through_corners(rt: HostRuntime) {
    assert!(rt;
        has_all(
            rt.alloc(),
            DIAMOND,
            &[(15, 12), (15, 18), (11, 15), (19, 15)],
            true
        )
    );
    assert!(rt;
        has_all(
            rt.alloc(),
            DIAMOND,
            &[(15, 5), (10, 12), (20, 12), (10, 5)],
            false
        )
    );
    assert!(rt;
        has_all(
            rt.alloc(),
            SQUARE,
            &[(10, 5), (20, 5), (10, 25), (20, 25)],
            false
        )
    );
}

#[test]
fn a_hole(rt: HostRuntime) {
    assert!(rt;
        has_all(
            rt.alloc(),
            HOLE,
            &[(5, 5), (15, 5), (15, 25), (25, 15), (0, 0)],
            true
        )
    );
    assert!(rt;
        has_all(
            rt.alloc(),
            HOLE,
            &[(10, 10), (10, 15), (15, 20), (20, 20)],
            true
        )
    );
    assert!(rt;
        has_all(
            rt.alloc(),
            HOLE,
            &[(15, 15), (11, 11), (19, 19), (15, 35)],
            false
        )
    );
    assert!(rt; are_alike(rt.alloc(), HOLE, TURNED));
}

/// What two rings of a polygon have in common is in neither, but for the edges. A name that begins with `!` makes no hole.
#[test]
fn two_rings(rt: HostRuntime) {
    assert!(rt;
        has_all(
            rt.alloc(),
            OVERLAPPING,
            &[(5, 5), (25, 25), (10, 15), (20, 20)],
            true
        )
    );
    assert!(rt;
        has_all(
            rt.alloc(),
            OVERLAPPING,
            &[(15, 15), (5, 25), (25, 5)],
            false
        )
    );
    assert!(rt; has_all(rt.alloc(), APART, &[(5, 5), (5, 25)], true));
    assert!(rt; has_all(rt.alloc(), APART, &[(5, 15), (15, 5)], false));
}

/// The same square twice, as features.
const TWICE: &str =
    "{\"type\": \"FeatureCollection\", \"features\": [{\"type\": \"Feature\", \"geometry\": {\"type\": \"Polygon\", \"coordinates\": [[[1, 1], [2, 1], [2, 2], [1, 2], [1, 1]]]}}, {\"type\": \"Feature\", \"geometry\": {\"type\": \"Polygon\", \"coordinates\": [[[1, 1], [2, 1], [2, 2], [1, 2], [1, 1]]]}}]}";

/// Two squares that overlap, as polygons.
const BOTH: &str =
    "{\"type\": \"MultiPolygon\", \"coordinates\": [[[[0, 0], [2, 0], [2, 2], [0, 2], [0, 0]]], [[[1, 1], [3, 1], [3, 3], [1, 3], [1, 1]]]]}";

/// A state, and a city within it, as geometries.
const STATE: &str =
    "{\"type\": \"GeometryCollection\", \"geometries\": [{\"type\": \"Polygon\", \"coordinates\": [[[0, 0], [3, 0], [3, 3], [0, 3], [0, 0]]]}, {\"type\": \"Polygon\", \"coordinates\": [[[1, 1], [2, 1], [2, 2], [1, 2], [1, 1]]]}]}";

/// A ring with a hole, and in the hole a square that fills its west.
const FILLED: &str =
    "{\"type\": \"MultiPolygon\", \"coordinates\": [[[[0, 0], [3, 0], [3, 3], [0, 3], [0, 0]], [[1, 1], [1, 2], [2, 2], [2, 1], [1, 1]]], [[[1, 1], [1.5, 1], [1.5, 2], [1, 2], [1, 1]]]]}";

/// A place is in the area if it is in any of its polygons.
#[test]
fn several_polygons(rt: HostRuntime) {
    let square = BoundingBox {
        left: 1_000_000_000,
        bottom: 1_000_000_000,
        right: 2_000_000_000,
        top: 2_000_000_000,
    };
    assert!(rt; is_box(rt.alloc(), TWICE, square));
    assert!(rt;
        has_all(
            rt.alloc(),
            BOTH,
            &[(5, 5), (15, 15), (25, 25), (10, 15)],
            true
        )
    );
    assert!(rt; has_all(rt.alloc(), BOTH, &[(5, 25), (25, 5), (35, 15)], false));
    assert!(rt;
        has_all(
            rt.alloc(),
            STATE,
            &[(5, 5), (15, 15), (25, 5), (10, 10)],
            true
        )
    );
    assert!(rt; has_all(rt.alloc(), STATE, &[(15, 35), (-1, 15)], false));
    assert!(rt;
        has_all(
            rt.alloc(),
            FILLED,
            &[(5, 5), (15, 12), (15, 15), (20, 15)],
            true
        )
    );
    assert!(rt; has_all(rt.alloc(), FILLED, &[(15, 17), (15, 35)], false));
}

#[test]
fn odd_rings(rt: HostRuntime) {
    assert!(rt;
        has_all(
            rt.alloc(),
            BOW,
            &[(15, 12), (15, 18), (15, 15), (11, 11)],
            true
        )
    );
    assert!(rt; has_all(rt.alloc(), BOW, &[(12, 15), (18, 15)], false));
    assert!(rt; has_all(rt.alloc(), POINT, &[(10, 10)], true));
    assert!(rt;
        has_all(
            rt.alloc(),
            POINT,
            &[(10, 9), (10, 11), (9, 10), (11, 10)],
            false
        )
    );
}

#[test]
fn the_ends_of_the_earth(rt: HostRuntime) {
    assert!(rt;
        has_all(
            rt.alloc(),
            EARTH,
            &[(900, 1800), (-900, -1800), (0, 0), (0, 1800)],
            true
        )
    );
    assert!(rt;
        has_all(
            rt.alloc(),
            EARTH,
            &[(901, 0), (-901, 0), (0, 1801), (0, -1801)],
            false
        )
    );
}

/// A zigzag whose edges all reach from -80 to 80 degrees, as a text.
fn zigzag(alloc: Global) -> Result<String, AllocError> {
    let mut text = String::new(alloc);
    text.push_str("x\n1\n")?;
    for lon in 0u32..170u32 {
        let lat = if lon % 2 == 0 { " -80\n" } else { " 80\n" };
        let lon = lon.to_string(alloc)?;
        text.push_str(&lon)?;
        text.push_str(lat)?;
    }
    text.push_str("END\nEND\n")?;
    Ok(text)
}

#[test]
fn edges_over_all_latitudes(rt: HostRuntime) -> Result<(), Fail> {
    let text = zigzag(rt.alloc())?;
    assert!(rt;
        has_all(
            rt.alloc(),
            &text,
            &[(0, 10), (0, 15), (-790, 20), (0, 845)],
            true
        )
    );
    assert!(rt;
        has_all(
            rt.alloc(),
            &text,
            &[(0, 20), (0, 4), (790, 20), (-800, 845)],
            false
        )
    );
    Ok(())
}

/// How far the place lies left of the line from one place to another.
fn turn(from: Place, to: Place, place: Place) -> i128 {
    let left = i128::from(to.lon)
        .wrapping_sub(i128::from(from.lon))
        .wrapping_mul(i128::from(place.lat).wrapping_sub(i128::from(from.lat)));
    let right = i128::from(to.lat)
        .wrapping_sub(i128::from(from.lat))
        .wrapping_mul(i128::from(place.lon).wrapping_sub(i128::from(from.lon)));
    left.wrapping_sub(right)
}

/// Whether the place lies on the edge from one place to another.
fn is_on_edge(from: Place, to: Place, place: Place) -> bool {
    let is_amid = from.lat.min(to.lat) <= place.lat
        && place.lat <= from.lat.max(to.lat)
        && from.lon.min(to.lon) <= place.lon
        && place.lon <= from.lon.max(to.lon);
    is_amid && turn(from, to, place) == 0
}

/// Whether the ray to the east crosses the edge from one place to another.
fn is_crossed(from: Place, to: Place, place: Place) -> bool {
    if from.lat <= to.lat {
        from.lat <= place.lat && place.lat < to.lat && 0 < turn(from, to, place)
    } else {
        to.lat <= place.lat && place.lat < from.lat && 0 < turn(to, from, place)
    }
}

/// Whether the polygon of a ring has the place: edge by edge, as it is defined.
fn is_in_ring(places: &[Place], place: Place) -> bool {
    let mut is_odd = false;
    let Some(last) = places.last() else {
        return false;
    };
    let mut from = *last;
    for to in places {
        if is_on_edge(from, *to, place) {
            return true;
        }
        is_odd = is_odd != is_crossed(from, *to, place);
        from = *to;
    }
    is_odd
}

/// The next of a row of numbers that look random.
fn next_number(number: u64) -> u64 {
    number
        .wrapping_mul(6_364_136_223_846_793_005)
        .wrapping_add(1_442_695_040_888_963_407)
}

/// A number of nanodegrees that is at most 20 degrees from 0: whole degrees for half of the numbers.
fn some_nanodegrees(number: u64) -> i128 {
    let part = number >> 24;
    if number % 4096 < 2048 {
        i128::from(part % 41) * 1_000_000_000 - 20_000_000_000
    } else {
        i128::from(part % 40_000_000_001) - 20_000_000_000
    }
}

/// A place for a number.
fn some_place(number: u64) -> Option<Place> {
    Place::of(
        some_nanodegrees(number),
        some_nanodegrees(next_number(number)),
    )
}

/// A ring that goes to so many places in no order.
fn scribble(alloc: Global, count: u32) -> Result<Ring, AllocError> {
    let mut places = Vec::new(alloc);
    let mut number = u64::from(count);
    for _corner in 0..count {
        number = next_number(next_number(number));
        if let Some(place) = some_place(number) {
            places.push(place)?;
        }
    }
    Ok(Ring { places })
}

/// A ring that goes so often from 20 degrees south to 20 degrees north or back.
fn up_and_down(alloc: Global, count: u32) -> Result<Ring, AllocError> {
    let mut places = Vec::new(alloc);
    for corner in 0..count {
        let lat = if corner % 2 == 0 {
            -20_000_000_000
        } else {
            20_000_000_000
        };
        if let Some(place) = Place::of(lat, i128::from(corner) * 100_000_000 - 20_000_000_000) {
            places.push(place)?;
        }
    }
    Ok(Ring { places })
}

/// A ring of so many short edges, which lie close together, and two long ones to a place far away.
fn stairs_and_a_far_place(alloc: Global, count: u32) -> Result<Ring, AllocError> {
    let mut places = Vec::new(alloc);
    for corner in 0..count {
        if let Some(place) = Place::of(
            i128::from(corner) * 2_000_000 + i128::from(corner % 3) * 3_000_000,
            i128::from(corner) * 100_000_000 - 20_000_000_000,
        ) {
            places.push(place)?;
        }
    }
    if let Some(place) = Place::of(-89_000_000_000, 179_000_000_000) {
        places.push(place)?;
    }
    Ok(Ring { places })
}

/// Whether the polygon of the ring has those of so many places that it is defined to have.
fn is_as_defined(alloc: Global, ring: Ring, count: u32) -> Result<bool, AllocError> {
    let rings = [ring];
    let polygon = Polygon::new(alloc, &rings)?;
    let mut number = 1;
    for _asked in 0..count {
        number = next_number(next_number(number));
        if let Some(place) = some_place(number) {
            let has = polygon.contains(i128::from(place.lat), i128::from(place.lon));
            if has != is_in_ring(rings[0].places.as_slice(), place) {
                return Ok(false);
            }
        }
    }
    Ok(true)
}

#[test]
fn many_edges_in_each_band(rt: HostRuntime) -> Result<(), Fail> {
    let zigzag = up_and_down(rt.alloc(), 401)?;
    assert!(rt; is_as_defined(rt.alloc(), zigzag, 2000)?);
    Ok(())
}

#[test]
fn many_edges_in_one_belt(rt: HostRuntime) -> Result<(), Fail> {
    for count in [40, 401] {
        let stairs = stairs_and_a_far_place(rt.alloc(), count)?;
        assert!(rt; is_as_defined(rt.alloc(), stairs, 5000)?);
    }
    Ok(())
}

#[test]
fn many_crossings(rt: HostRuntime) -> Result<(), Fail> {
    for count in [3, 4, 7, 60, 400] {
        let ring = scribble(rt.alloc(), count)?;
        assert!(rt; is_as_defined(rt.alloc(), ring, 1000)?);
    }
    Ok(())
}

/// A square whose southwest corner is this place.
fn square_at(alloc: Global, corner: Place) -> Result<Ring, AllocError> {
    let mut places = Vec::new(alloc);
    for (is_north, is_east) in [(false, false), (false, true), (true, true), (true, false)] {
        if let Some(place) = Place::of(
            i128::from(corner.lat) + if is_north { 900_000_000 } else { 0 },
            i128::from(corner.lon) + if is_east { 900_000_000 } else { 0 },
        ) {
            places.push(place)?;
        }
    }
    Ok(Ring { places })
}

/// So many squares in no order, many of which overlap, each as a polygon.
fn squares(alloc: Global, count: u32) -> Result<Vec<Vec<Ring>>, AllocError> {
    let mut polygons = Vec::new(alloc);
    let mut number = u64::from(count);
    for _square in 0..count {
        number = next_number(next_number(number));
        if let Some(corner) = some_place(number) {
            let mut rings = Vec::new(alloc);
            rings.push(square_at(alloc, corner)?)?;
            polygons.push(rings)?;
        }
    }
    Ok(polygons)
}

/// Whether a polygon of one ring has the place.
fn is_in_any_ring(polygons: &[Vec<Ring>], place: Place) -> bool {
    for rings in polygons {
        for ring in rings {
            if is_in_ring(ring.places.as_slice(), place) {
                return true;
            }
        }
    }
    false
}

/// Whether the area of polygons of one ring each has those of so many places that any of them has, and how many these are.
fn count_in_any(
    alloc: Global,
    polygons: &[Vec<Ring>],
    count: u32,
) -> Result<Option<u32>, AllocError> {
    let area = MultiPolygon::new(alloc, polygons)?;
    let mut number = 1;
    let mut inside = 0u32;
    for _asked in 0..count {
        number = next_number(next_number(number));
        if let Some(place) = some_place(number) {
            let has = area.contains(i128::from(place.lat), i128::from(place.lon));
            if has != is_in_any_ring(polygons, place) {
                return Ok(None);
            }
            inside = inside.saturating_add(u32::from(has));
        }
    }
    Ok(Some(inside))
}

/// Groups of polygons, and clusters of groups.
#[test]
fn many_polygons(rt: HostRuntime) -> Result<(), Fail> {
    for count in [1, 2, 9, 30, 300] {
        let polygons = squares(rt.alloc(), count)?;
        let inside = count_in_any(rt.alloc(), polygons.as_slice(), 1000)?;
        assert!(rt; inside.is_some_and(|inside| inside < 1000), "at {count}");
        assert!(rt;
            count < 30 || inside.is_some_and(|inside| 10 < inside),
            "at {count}"
        );
    }
    Ok(())
}

/// Whether a polygon without rings has no place.
fn is_nowhere(alloc: Global) -> bool {
    let rings: [Ring; 0] = [];
    match Polygon::new(alloc, &rings) {
        Ok(polygon) => !polygon.contains(0, 0),
        Err(_) => false,
    }
}

#[test]
fn no_rings(rt: HostRuntime) {
    assert!(rt; is_nowhere(rt.alloc()));
}
