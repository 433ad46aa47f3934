//! Gathers the nodes that lie in an area, and maybe the ways and the relations.

ghost use Rattle.std.specs.Prelude.{◌≡◌, ⊤, Bool, List, MatchOption, OnOk, map};
ghost use Rattle.std.specs.List.{fold};
ghost use Rattle.osm_area.specs.Area.{box_area};
ghost use Rattle.osm_entity.specs.Entity.{TagSpec, node};
ghost use Rattle.pbf_dense.specs.Cursors.{dense_left};
ghost use Rattle.pbf_dense.specs.Within.{ids_within, ids_within_left};
ghost use Rattle.pbf_pass.specs.Pass.{with_inside, with_seen, with_seen_in};

use crate::pass::{Gather, seen};
use osm_area::Area;
use osm_entity::{BoundingBox, EntityRef};
use osm_ways::{InArea, NodeTaker, SeenWay};
use pbf_block::{Kinds, Unmade};
use pbf_dense::{Dense, IdsWithin};
use std::alloc::AllocError;

impl<A: Area, P: NodeTaker> Gather for InArea<A, P> {
    ghost gathered = { with_seen_in A.area P.step };

    fn kinds() -> Kinds {
        Kinds {
            nodes: true,
            ways: P::takes_ways(),
            relations: P::takes_relations(),
        }
    }

    fn gather(&mut self, entity: &EntityRef<'_>) -> Result<(), AllocError> {
        match entity {
            EntityRef::Node(node) => self.take_node(node),
            EntityRef::Way(way) => self.phase.take_refs(SeenWay::of(way)),
            EntityRef::Relation(relation) => self.take_relation(relation),
        }
    }

    fn gather_way(&mut self, unmade: &Unmade<'_>) -> Result<(), AllocError> {
        self.phase.take_refs(seen(unmade))
    }

    fn gather_dense(&mut self, dense: &Dense<'_>) -> Result<(), AllocError> {
        take_places(self, dense)
    }
}

/// Takes the nodes of a dense message that lie in the area, each by only its id.
fn take_ids<P: NodeTaker>(phase: &mut P, ids: IdsWithin<'_>) -> Result<(), AllocError>
    ensures { OnOk result (phase.new
        ≡ fold (with_inside P.step) phase.old (ids_within_left ids.entry)) }
{
    for id in ids {
        phase.take_inside(id)?;
    }
    Ok(())
}

/// Takes the nodes of a dense message, each by only its id and its place.
fn take_each_place<A: Area, P: NodeTaker>(
    taking: &mut InArea<A, P>,
    dense: &Dense<'_>,
) -> Result<(), AllocError>
    ensures { OnOk result (taking.new
        ≡ fold (with_seen_in A.area P.step) taking.old (map node (dense_left dense.now))) }
{
    for place in dense.places() {
        taking.take_place(place.id, place.lat, place.lon)?;
    }
    Ok(())
}

/// Takes the nodes of a dense message that lie in a box, by their ids. If there are others, they count as one.
fn take_within<P: NodeTaker>(
    phase: &mut P,
    dense: &Dense<'_>,
    within: Within<'_>,
) -> Result<(), AllocError>
    requires { ids_within_left within.ids ≡ ids_within within.area (dense_left dense.now) }
    ensures { (whole : List TagSpec → Bool) → OnOk result (phase.new
        ≡ fold (with_seen whole (box_area within.entry.area) P.step) phase.old
        (map node (dense_left dense.now))) }
{
    let first = dense.places().next();
    let is_empty = first.is_none();
    if is_empty {
        return Ok(());
    }
    phase.take_outside();
    take_ids(phase, within.ids)
}

/// A box, and the ids of the nodes of a dense message that lie in it.
#[derive(Clone, Copy)]
struct Within<'a> {
    area: BoundingBox,
    ids: IdsWithin<'a>,
}

/// The ids of the nodes of a dense message that lie in the area, if that is a box that can be looked for.
fn ids_in<'a, A: Area>(area: &A, dense: &Dense<'a>) -> Option<Within<'a>>
    ensures { MatchOption result ⊤ (λ within. (A.area area.now ≡ box_area within.area)
        × (ids_within_left within.ids ≡ ids_within within.area (dense_left dense.now))) }
{
    let area = area.as_box()?;
    let ids = dense.ids_within(&area)?;
    Some(Within { area, ids })
}

/// Takes the nodes of a dense message. In a box those outside change nothing, so that of most only the longitude is read.
fn take_places<A: Area, P: NodeTaker>(
    taking: &mut InArea<A, P>,
    dense: &Dense<'_>,
) -> Result<(), AllocError>
    ensures { OnOk result (taking.new
        ≡ fold (with_seen_in A.area P.step) taking.old (map node (dense_left dense.now))) }
{
    match ids_in(&taking.area, dense) {
        Some(within) => take_within(&mut taking.phase, dense, within),
        None => take_each_place(taking, dense),
    }
}
