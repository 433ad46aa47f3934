//! Polygons in groups, and groups in clusters, each with a box. So a place is compared with few of many polygons.

ghost use Rattle.std.specs.Prelude.{◌≡◌, ◌≤◌, ℤ, IfOk};
ghost use Rattle.osm_box.specs.BoundingBox.{is_inside};
ghost use Rattle.osm_polygon.specs.Polygons.{box_of, is_in_any, box_of_both};
ghost use Rattle.osm_polygon.specs.Groups.{is_in_group, is_in_groups, is_in_cluster, is_in_clusters};

use crate::place::Place;
use crate::polygon::Polygon;
use crate::ring::NO_BOX;
use osm_area::Area;
use osm_box::BoundingBox;
use std::alloc::{AllocError, Global};

/// How many polygons a group has at most.
const MOST: usize = 4096;

/// Polygons that lie beside each other, and the least box that has them.
#[derive(Debug, Drop)]
pub(crate) struct Group {
    pub(crate) bounds: BoundingBox,
    pub(crate) polygons: Vec<Polygon>,
}

/// Groups that lie beside each other, and the least box that has their polygons.
#[derive(Debug, Drop)]
pub(crate) struct Cluster {
    pub(crate) bounds: BoundingBox,
    pub(crate) groups: Vec<Group>,
}

/// Whether the box has the place.
#[inline(always)]
fn is_inside(bounds: &BoundingBox, place: Place) -> bool
    ensures { result ≡ is_inside bounds.now place.lat place.lon }
{
    bounds.contains(i128::from(place.lat), i128::from(place.lon))
}

/// Whether any of the polygons has the place.
fn any_has(polygons: &[Polygon], place: Place) -> bool
    ensures { result ≡ is_in_any polygons.now place.lat place.lon }
{
    let mut rest = polygons;
    'polygons: while let Some((polygon, more)) = rest.split_first() {
        if polygon.has_place(place) {
            return true;
        }
        rest = more;
    }
    false
}

/// Whether a polygon of any of the groups has the place.
fn any_group_has(groups: &[Group], place: Place) -> bool
    ensures { result ≡ is_in_groups groups.now place.lat place.lon }
{
    let mut rest = groups;
    'groups: while let Some((group, more)) = rest.split_first() {
        if is_inside(&group.bounds, place) && any_has(group.polygons.as_slice(), place) {
            return true;
        }
        rest = more;
    }
    false
}

/// Whether a polygon of any of the clusters has the place.
pub(crate) fn any_cluster_has(clusters: &[Cluster], place: Place) -> bool
    ensures { result ≡ is_in_clusters clusters.now place.lat place.lon }
{
    let mut rest = clusters;
    'clusters: while let Some((cluster, more)) = rest.split_first() {
        if is_inside(&cluster.bounds, place) && any_group_has(cluster.groups.as_slice(), place) {
            return true;
        }
        rest = more;
    }
    false
}

/// The least box that has both.
fn join(area: BoundingBox, other: BoundingBox) -> BoundingBox
    ensures { result ≡ box_of_both area other }
{
    BoundingBox {
        left: area.left.min(other.left),
        bottom: area.bottom.min(other.bottom),
        right: area.right.max(other.right),
        top: area.top.max(other.top),
    }
}

/// The least box that has the boxes of all polygons.
pub(crate) fn box_of(polygons: &[Polygon]) -> BoundingBox
    ensures { result ≡ box_of polygons.now }
{
    let mut area = NO_BOX;
    let mut rest = polygons;
    'polygons: while let Some((polygon, more)) = rest.split_first() {
        area = join(area, polygon.bounds());
        rest = more;
    }
    area
}

/// How many polygons a group has, and how many groups a cluster, if there are so many polygons: the cube root, so that there are as many clusters.
pub(crate) fn size_for(count: usize) -> usize
    ensures least { 1 ≤ result }
    ensures most { result ≤ 4096 }
{
    for size in 1..MOST {
        if count <= size * size * size {
            return size;
        }
    }
    MOST
}

/// The group of these polygons.
fn group_of(polygons: Vec<Polygon>) -> Group
    ensures { (lat lon : ℤ) → is_in_group result lat lon ≡ is_in_any polygons.items lat lon }
{
    Group {
        bounds: box_of(polygons.as_slice()),
        polygons,
    }
}

/// The groups of these polygons, each of so many that follow each other.
fn groups_of(
    alloc: Global,
    mut polygons: Vec<Polygon>,
    size: usize,
) -> Result<Vec<Group>, AllocError>
    requires { 1 ≤ size }
    ensures { IfOk result (λ groups. (lat lon : ℤ)
        → is_in_groups groups.items lat lon ≡ is_in_any polygons.items lat lon) }
{
    let mut groups = Vec::new(alloc);
    'parts: while polygons.len() > size {
        let at = polygons.len() - size;
        let part = polygons.split_off(at)?;
        groups.push(group_of(part))?;
    }
    groups.push(group_of(polygons))?;
    Ok(groups)
}

/// The cluster of these polygons: its groups lie beside each other from west to east.
fn cluster_of(alloc: Global, mut polygons: Vec<Polygon>, size: usize) -> Result<Cluster, AllocError>
    requires { 1 ≤ size }
    ensures { IfOk result (λ cluster. (lat lon : ℤ)
        → is_in_cluster cluster lat lon ≡ is_in_any polygons.items lat lon) }
{
    let bounds = box_of(polygons.as_slice());
    polygons.sort_by_key(|polygon| polygon.bounds().left)?;
    let groups = groups_of(alloc, polygons, size)?;
    Ok(Cluster { bounds, groups })
}

/// The clusters of these polygons, from south to north.
pub(crate) fn clusters_of(
    alloc: Global,
    mut polygons: Vec<Polygon>,
    size: usize,
) -> Result<Vec<Cluster>, AllocError>
    requires least { 1 ≤ size }
    requires most { size ≤ 4096 }
    ensures { IfOk result (λ clusters. (lat lon : ℤ)
        → is_in_clusters clusters.items lat lon ≡ is_in_any polygons.items lat lon) }
{
    polygons.sort_by_key(|polygon| polygon.bounds().bottom)?;
    let mut clusters = Vec::new(alloc);
    'parts: while polygons.len() > size * size {
        let at = polygons.len() - size * size;
        let part = polygons.split_off(at)?;
        clusters.push(cluster_of(alloc, part, size)?)?;
    }
    clusters.push(cluster_of(alloc, polygons, size)?)?;
    Ok(clusters)
}
