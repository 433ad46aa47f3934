//! Rings: their edges, and the least box round them.

ghost use Rattle.std.specs.Prelude.{◌≡◌, ◌++◌, IfOk, OnOk, map};
ghost use Rattle.osm_polygon.specs.Edges.{point_of, side_of};
ghost use Rattle.osm_polygon.specs.Coordinates.{is_long_back, is_long_to};
ghost use Rattle.osm_polygon.specs.RingPlaces.{places_of};
ghost use Rattle.osm_polygon.specs.Rings.{ring_sides, rings_sides, grown, box_round};

use crate::edge::Edge;
use crate::place::Place;
use osm_box::{BoundingBox, MOST_LAT, MOST_LON};
use std::alloc::{AllocError, Global};

/// A box that has no place.
pub(crate) const NO_BOX: BoundingBox = BoundingBox {
    left: MOST_LON,
    bottom: MOST_LAT,
    right: -MOST_LON,
    top: -MOST_LAT,
};

/// A ring: its places in order. An edge joins the last to the first, whether they are the same place or not.
#[derive(Debug, Drop)]
pub struct Ring {
    /// The places, in either direction. A ring from a file has three at least; one of fewer has edges too, if it has a place.
    pub places: Vec<Place>,
}

/// Whether the edge from the last of these places to one more would be shorter round the other side of the earth.
pub(crate) fn is_long_to(places: &[Place], to: Place) -> bool
    ensures { result ≡ is_long_to (map point_of places.now) (point_of to) }
{
    match places.last() {
        Some(from) => to.is_long_from(*from),
        None => false,
    }
}

/// Whether that from the last of these places to the first would be.
pub(crate) fn is_long_back(places: &[Place]) -> bool
    ensures { result ≡ is_long_back (map point_of places.now) }
{
    let (Some(first), Some(last)) = (places.first(), places.last()) else {
        return false;
    };
    first.is_long_from(*last)
}

/// Adds the edges of a ring with these places.
fn add_ring(edges: &mut Vec<Edge>, places: &[Place]) -> Result<(), AllocError>
    ensures { OnOk result (map side_of edges.new.items
        ≡ map side_of edges.old.items ++ ring_sides (map point_of places.now)) }
{
    let Some((first, rest)) = places.split_first() else {
        return Ok(());
    };
    let mut from = *first;
    let mut rest = rest;
    'places: while let Some((place, more)) = rest.split_first() {
        edges.push(Edge { from, to: *place })?;
        from = *place;
        rest = more;
    }
    edges.push(Edge { from, to: *first })?;
    Ok(())
}

/// The edges of rings.
pub(crate) fn edges_of(alloc: Global, rings: &[Ring]) -> Result<Vec<Edge>, AllocError>
    ensures { IfOk result (λ edges. map side_of edges.items
        ≡ rings_sides (map places_of rings.now)) }
{
    let mut edges = Vec::new(alloc);
    let mut rest = rings;
    'rings: while let Some((ring, more)) = rest.split_first() {
        add_ring(&mut edges, ring.places.as_slice())?;
        rest = more;
    }
    Ok(edges)
}

/// The box, made as much larger as is needed to have the place too.
fn widen(area: BoundingBox, place: Place) -> BoundingBox
    ensures { result ≡ grown area (point_of place) }
{
    BoundingBox {
        left: area.left.min(place.lon),
        bottom: area.bottom.min(place.lat),
        right: area.right.max(place.lon),
        top: area.top.max(place.lat),
    }
}

/// The least box that has all ends of edges. Without edges it has no place.
pub(crate) fn bounds_of(edges: &[Edge]) -> BoundingBox
    ensures { result ≡ box_round (map side_of edges.now) }
{
    let mut area = NO_BOX;
    let mut rest = edges;
    'edges: while let Some((edge, more)) = rest.split_first() {
        area = widen(area, edge.to);
        rest = more;
    }
    area
}
