//! Polygons as one area.

ghost use Rattle.std.specs.Prelude.{◌≡◌, IfOk, map};
ghost use Rattle.osm_polygon.specs.Groups.{clusters_area};
ghost use Rattle.osm_polygon.specs.Polygons.{polygons_area, polygons_of};
ghost use Rattle.osm_polygon.specs.RingPlaces.{rings_of};
ghost use Rattle.osm_polygon.specs.Rings.{polygon_of};

use crate::groups::{Cluster, any_cluster_has, box_of, clusters_of, size_for};
use crate::place::Place;
use crate::polygon::Polygon;
use crate::ring::Ring;
use osm_area::Area;
use osm_box::BoundingBox;
use std::alloc::{AllocError, Global};
use std::marker::Model;

/// Polygons that are one area. A place lies in it if it lies in any of them: polygons that overlap lose nothing, and no polygon is a hole of another.
#[derive(Debug, Drop)]
pub struct MultiPolygon {
    bounds: BoundingBox,
    clusters: Vec<Cluster>,
}

impl Model for MultiPolygon {
    ghost use Rattle.osm_polygon.specs.Groups.{ClustersSpec};

    ghost Value = { ClustersSpec };

    ghost view = { λ a. record { bounds = a.bounds; clusters = a.clusters.items } };
}

/// The polygons with these rings.
fn made_of(alloc: Global, polygons: &[Vec<Ring>]) -> Result<Vec<Polygon>, AllocError>
    ensures { IfOk result (λ made. made.items ≡ map polygon_of (map rings_of polygons.now)) }
{
    let mut made = Vec::new(alloc);
    let mut rest = polygons;
    'polygons: while let Some((rings, more)) = rest.split_first() {
        made.push(Polygon::new(alloc, rings.as_slice())?)?;
        rest = more;
    }
    Ok(made)
}

impl MultiPolygon {
    /// The area of polygons with these rings. No polygons make an area that has no place.
    ///
    /// # Errors
    ///
    /// If memory is refused.
    pub fn new(alloc: Global, polygons: &[Vec<Ring>]) -> Result<MultiPolygon, AllocError>
        ensures { IfOk result (λ area. clusters_area area
            ≡ polygons_area (polygons_of (map rings_of polygons.now))) }
    {
        let made = made_of(alloc, polygons)?;
        let bounds = box_of(made.as_slice());
        let size = size_for(made.len());
        let clusters = clusters_of(alloc, made, size)?;
        Ok(MultiPolygon { bounds, clusters })
    }
}

impl Area for MultiPolygon {
    ghost area = { clusters_area };

    fn bounds(&self) -> BoundingBox {
        self.bounds
    }

    fn contains(&self, lat: i128, lon: i128) -> bool {
        if !self.bounds.contains(lat, lon) {
            return false;
        }
        let Some(place) = Place::of(lat, lon) else {
            return false;
        };
        any_cluster_has(self.clusters.as_slice(), place)
    }

    fn as_box(&self) -> Option<BoundingBox> {
        None
    }
}
