//! The first phases of several areas as one gatherer, which gives a place only to the areas that it may lie in.

ghost use Rattle.std.specs.Prelude.{◌≡◌, ◌<◌, ◌+◌, ◌^◌, ℤ, false, IfOk, OnOk, length, map};
ghost use Rattle.std.specs.List.{AllByRecursion, fold};
ghost use Rattle.osm_area.specs.Strips.{asked_at};
ghost use Rattle.osm_entity.specs.Entity.{node};
ghost use Rattle.osm_ways.specs.InArea.{stepped};
ghost use Rattle.osm_ways.specs.Selection.{a_node};
ghost use Rattle.pbf_dense.specs.Cursors.{dense_left};
ghost use Rattle.pbf_pass.specs.Each.{each_gathered};
ghost use Rattle.pbf_pass.specs.EachArea.{AreEnough, IsBounded, IsReady, StripsSuffice, member_areas, node_placed};
ghost use Rattle.pbf_pass.specs.Pass.{with_seen_in};

use crate::each::{gather_dense_each, gather_each};
use crate::pass::Gather;
use crate::way_strips::{WayStrips, take_way_each};
use osm_area::{Area, AreaStrips};
use osm_entity::{BoundingBox, EntityRef};
use osm_ways::{InArea, NodeTaker};
use pbf_block::{Kinds, Unmade};
use pbf_dense::{Dense, Place};
use std::alloc::{AllocError, Global};
use std::marker::Model;
use std::mem;

/// Each of fewer areas looks through all nodes by itself, which costs less.
const FEW_AREAS: usize = 4;

/// The first phases of several areas, as one gatherer. It does what `Each` of them does, but gives a place only to the areas that may have one of
/// its longitude, and a way only to those that may have one of its refs. Contracts see the list of the phases.
#[derive(Drop)]
pub struct EachArea<A: Area, P: NodeTaker> {
    members: Vec<InArea<A, P>>,
    strips: Option<AreaStrips>,
    ways: WayStrips,
}

impl<A: Area, P: NodeTaker> Model for EachArea<A, P> {
    ghost use Rattle.std.specs.Prelude.{List};
    ghost use Rattle.osm_ways.specs.declared.in_area.InArea as in_area;
    ghost use Rattle.pbf_pass.specs.EachArea.{StripsFindAll, StripsSuffice, member_areas};

    ghost Value = { List (in_area.InArea A P) };

    ghost view = { λ each. each.members.items };

    ghost invariant = { λ each. StripsSuffice (member_areas A.area each.members.items) each.strips
        × StripsFindAll P.step P.inside each.members.items each.ways };
}

/// The boxes of the areas of phases.
fn boxes_of<A: Area, P>(
    alloc: Global,
    members: &[InArea<A, P>],
) -> Result<Vec<BoundingBox>, AllocError>
    ensures are { IfOk result (λ boxes. boxes.items
        ≡ map (λ area. area.bounds) (member_areas A.area members.now)) }
    ensures within { IfOk result (λ _. AllByRecursion IsBounded (member_areas A.area members.now)) }
{
    let mut boxes = Vec::new(alloc);
    let mut rest = members;
    'members: while let Some((member, later)) = rest.split_first() {
        boxes.push(member.area.bounds())?;
        rest = later;
    }
    Ok(boxes)
}

/// The strips of the areas of phases, if they are not few.
fn strips_for<A: Area, P>(
    alloc: Global,
    members: &[InArea<A, P>],
) -> Result<Option<AreaStrips>, AllocError>
    ensures { IfOk result (StripsSuffice (member_areas A.area members.now)) }
{
    if members.len() < FEW_AREAS {
        return Ok(None);
    }
    let boxes = boxes_of(alloc, members)?;
    let strips = AreaStrips::new(alloc, boxes.as_slice())?;
    Ok(Some(strips))
}

impl<A: Area, P: NodeTaker> EachArea<A, P> {
    /// These, in the order of their turns. If there are more than a few, the strips of their areas are made, and at the first way those of
    /// their nodes.
    ///
    /// # Errors
    ///
    /// If memory is refused, the phases are gone.
    pub fn new(alloc: Global, members: Vec<InArea<A, P>>) -> Result<EachArea<A, P>, AllocError>
    where
        A: Drop,
        P: Drop,
        ensures { IfOk result (λ each. each ≡ members.items) }
    {
        let strips = strips_for(alloc, members.as_slice())?;
        let ways = WayStrips::if_many(&strips, alloc);
        Ok(EachArea {
            members,
            strips,
            ways,
        })
    }

    /// Those that it has, in the same order.
    pub fn into_members(self) -> Vec<InArea<A, P>>
        ensures { result.items ≡ self }
    {
        self.members
    }
}

/// Takes a node that lies outside of all areas.
fn take_outside_each<A: Area, P: NodeTaker>(members: &mut [InArea<A, P>])
    ensures taken { (id : ℤ) → members.new
        ≡ map (λ of. stepped P.step of (a_node id false)) members.old }
    ensures ready { AllByRecursion (IsReady P.step) members.new }
{
    let Some((first, later)) = members.split_first_mut() else {
        return;
    };
    first.phase.take_outside();
    take_outside_each(later);
}

/// Takes a node by its place. Of the phases, which are counted from `first`, only those with these numbers are asked.
fn take_asked<A: Area, P: NodeTaker>(
    members: &mut [InArea<A, P>],
    first: usize,
    numbers: &[usize],
    place: Place,
) -> Result<(), AllocError>
    requires few { first + length members.old < 2 ^ 64 }
    requires ready { AllByRecursion (IsReady P.step) members.old }
    requires asked { AreEnough place.lon first (member_areas A.area members.old) numbers.now }
    ensures { OnOk result
        (members.new ≡ map (λ of. node_placed A.area P.step of place) members.old) }
{
    let Some((number, later)) = numbers.split_first() else {
        return Ok(());
    };
    let (_, from) = members.split_at_mut(*number - first);
    let Some((member, after)) = from.split_first_mut() else {
        return Ok(());
    };
    member.take_place(place.id, place.lat, place.lon)?;
    take_asked(after, *number + 1, later, place)
}

/// Takes the nodes of a dense message, after another one.
fn take_places_asked<A: Area, P: NodeTaker>(
    members: &mut [InArea<A, P>],
    strips: &AreaStrips,
    dense: &Dense<'_>,
) -> Result<(), AllocError>
    requires ready { AllByRecursion (IsReady P.step) members.old }
    requires asks { (lon : ℤ) → AreEnough lon 0 (member_areas A.area members.old)
        (asked_at strips.now lon) }
    ensures { OnOk result (members.new ≡ map (λ of. fold (with_seen_in A.area P.step) of
        (map node (dense_left dense.now))) members.old) }
{
    for place in dense.places() {
        take_asked(members, 0, strips.at(place.lon), place)?;
    }
    Ok(())
}

/// Takes the nodes of a dense message. For a phase that isn't asked they are as one node outside.
fn take_by_strips<A: Area, P: NodeTaker>(
    members: &mut [InArea<A, P>],
    strips: &AreaStrips,
    dense: &Dense<'_>,
) -> Result<(), AllocError>
    requires { (lon : ℤ) → AreEnough lon 0 (member_areas A.area members.old)
        (asked_at strips.now lon) }
    ensures { OnOk result (members.new ≡ map (λ of. fold (with_seen_in A.area P.step) of
        (map node (dense_left dense.now))) members.old) }
{
    let first = dense.places().next();
    let is_empty = first.is_none();
    if is_empty {
        return Ok(());
    }
    take_outside_each(members);
    take_places_asked(members, strips, dense)
}

/// Gathers the nodes of a dense message by each of the phases, by strips if there are any.
fn take_dense_each<A: Area, P: NodeTaker>(
    members: &mut [InArea<A, P>],
    strips: &Option<AreaStrips>,
    dense: &Dense<'_>,
) -> Result<(), AllocError>
    requires { StripsSuffice (member_areas A.area members.old) strips.now }
    ensures { OnOk result (members.new ≡ map (λ of. fold (with_seen_in A.area P.step) of
        (map node (dense_left dense.now))) members.old) }
{
    match strips {
        Some(strips) => take_by_strips(members, strips, dense),
        None => gather_dense_each(members, dense),
    }
}

impl<A: Area, P: NodeTaker> Gather for EachArea<A, P> {
    ghost gathered = { each_gathered (with_seen_in A.area P.step) };

    #[tactic(auto, using(crate::proofs::EachLemmas::none_gathered))]
    fn kinds() -> Kinds {
        InArea::<A, P>::kinds()
    }

    /// If memory is refused, no strips are left: then nothing is known of the areas.
    #[tactic(auto, using(crate::proofs::EachLemmas::all_back))]
    fn gather(&mut self, entity: &EntityRef<'_>) -> Result<(), AllocError> {
        self.ways.drop_made();
        let strips = self.strips.take();
        gather_each(&mut self.members, entity)?;
        self.strips = strips;
        Ok(())
    }

    /// Of most ways no ref is near a node of an area: then no phase is asked.
    #[tactic(auto, using(crate::proofs::EachLemmas::all_back))]
    fn gather_way(&mut self, unmade: &Unmade<'_>) -> Result<(), AllocError> {
        if !self.ways.mark_way(unmade) {
            return Ok(());
        }
        let strips = self.strips.take();
        let ways = mem::replace(&mut self.ways, WayStrips::Never);
        self.ways = take_way_each(&mut self.members, ways, unmade)?;
        self.strips = strips;
        Ok(())
    }

    #[tactic(auto, using(crate::proofs::EachLemmas::all_back, crate::proofs::EachLemmas::fold_each))]
    fn gather_dense(&mut self, dense: &Dense<'_>) -> Result<(), AllocError> {
        self.ways.drop_made();
        let strips = self.strips.take();
        take_dense_each(&mut self.members, &strips, dense)?;
        self.strips = strips;
        Ok(())
    }
}
