//! Ways.

ghost use Rattle.std.specs.Prelude.{◌≡◌, ◌↔◌, ◌-◌, ◌*◌, ◌^◌, min, map, length, IsTrue, IfOk, SomeIff};
ghost use Rattle.std.specs.List.{AllByRecursion};
ghost use Rattle.std.specs.Option.{option_map};
ghost use Rattle.osm_entity.specs.Scale.{millis};
ghost use Rattle.osm_entity.specs.Entity.{nano_location};
ghost use Rattle.osm_entity.specs.Sources.{tags_left, refs_left, locations_left, nano_locations_left};
ghost use Rattle.osm_entity.specs.Views.{meta_of, way_of, owned_way};
ghost use Rattle.osm_entity.specs.Weight.{way_weight};
ghost use Rattle.osm_entity.specs.declared.weight.TheConstants.{PART_WEIGHT};
ghost use Rattle.osm_entity.specs.Ranges.{AreLocated, LocationFits, WayFits};

use crate::locations::{Locations, NanoLocations, owned_locations};
use crate::meta::{Meta, MetaRef};
use crate::refs::{Refs, owned_refs};
use crate::scale::Scale;
use crate::tags::{Tag, Tags, owned_tags};
use crate::weight::{
    ENTITY_WEIGHT, id_fits, locations_fit, locations_weight, refs_weight, stored_refs_weight,
    tags_weight, within_weight_limit,
};
use std::alloc::{AllocError, Global};

/// A way that owns its texts and lists.
#[derive(Debug, Drop)]
pub struct Way {
    pub id: i64,
    pub meta: Meta,
    pub tags: Vec<Tag>,
    /// The ids of the way's nodes.
    pub refs: Vec<i64>,
    /// Where these nodes are, in units that `scale` says: a latitude and a longitude for each ref, or nothing.
    pub locations: Vec<(i64, i64)>,
    pub scale: Scale,
}

impl Way {
    /// The same way, lent.
    pub fn view(&self) -> WayRef<'_>
        ensures { way_of result ≡ owned_way self.now }
    {
        WayRef {
            id: self.id,
            meta: self.meta.view(),
            tags: Tags::Owned(&self.tags),
            refs: Refs::Owned(&self.refs),
            locations: Locations::Owned(&self.locations),
            scale: self.scale,
        }
    }
}

/// A way, wherever it lies.
#[derive(Clone, Copy)]
pub struct WayRef<'a> {
    id: i64,
    meta: MetaRef<'a>,
    tags: Tags<'a>,
    refs: Refs<'a>,
    locations: Locations<'a>,
    scale: Scale,
}

impl<'a> WayRef<'a> {
    /// The way of these parts.
    pub fn new(
        id: i64,
        meta: MetaRef<'a>,
        tags: Tags<'a>,
        refs: Refs<'a>,
        locations: Locations<'a>,
        scale: Scale,
    ) -> WayRef<'a>
        ensures { way_of result ≡ record {
          id = id;
          meta = meta_of meta.entry;
          tags = tags_left tags.entry;
          refs = refs_left refs.entry;
          locations = locations_left locations.entry;
          scale = scale;
        } }
    {
        WayRef {
            id,
            meta,
            tags,
            refs,
            locations,
            scale,
        }
    }

    /// The way's id.
    pub fn id(&self) -> i64
        ensures { result ≡ (way_of self.now).id }
    {
        self.id
    }

    /// What the stored numbers mean.
    pub fn scale(&self) -> Scale
        ensures { result ≡ (way_of self.now).scale }
    {
        self.scale
    }

    /// The metadata.
    pub fn meta(&self) -> MetaRef<'a>
        ensures { meta_of result ≡ (way_of self.now).meta }
    {
        self.meta
    }

    /// The tags in order.
    pub fn tags(&self) -> Tags<'a>
        ensures { tags_left result ≡ (way_of self.now).tags }
    {
        self.tags
    }

    /// The ids of the way's nodes, in order.
    pub fn refs(&self) -> Refs<'a>
        ensures { refs_left result ≡ (way_of self.now).refs }
    {
        self.refs
    }

    /// The stored locations of the way's nodes, in the order of the refs: one for each, or none.
    pub fn locations(&self) -> Locations<'a>
        ensures { locations_left result ≡ (way_of self.now).locations }
    {
        self.locations
    }

    /// The locations of the way's nodes in nanodegrees.
    pub fn nano_locations(&self) -> NanoLocations<'a>
        ensures { nano_locations_left result
            ≡ map (nano_location (way_of self.now).scale) (way_of self.now).locations }
    {
        NanoLocations::new(self.locations, self.scale)
    }

    /// The time in milliseconds, from 1970 on.
    pub fn millis(&self) -> Option<i128>
        ensures { result
            ≡ option_map (millis (way_of self.now).scale) (way_of self.now).meta.timestamp }
    {
        self.meta.millis(self.scale)
    }

    /// The weight of the way, whose refs and locations weigh this.
    fn weight_with(&self, refs: u64, locations: u64) -> u64
        requires refs { refs ≡ min (PART_WEIGHT * length (way_of self.now).refs) (2 ^ 64 - 1) }
        requires locations { locations
            ≡ min (PART_WEIGHT * length (way_of self.now).locations) (2 ^ 64 - 1) }
        ensures { result ≡ min (way_weight (way_of self.now)) (2 ^ 64 - 1) }
    {
        let texts = tags_weight(self.tags).saturating_add(self.meta.user_weight());
        refs.saturating_add(locations)
            .saturating_add(texts)
            .saturating_add(ENTITY_WEIGHT)
    }

    /// What the way counts for in a block, or the greatest number if it is more.
    pub fn weight(&self) -> u64
        ensures { result ≡ min (way_weight (way_of self.now)) (2 ^ 64 - 1) }
    {
        self.weight_with(refs_weight(self.refs), locations_weight(self.locations))
    }

    /// What the way counts for in a block, if [`WayRef::fits`] holds of it, and otherwise `None`. The refs are decoded once at most.
    pub fn weight_if_fits(&self) -> Option<u64>
        ensures { SomeIff result (WayFits (way_of self.now)) (way_weight (way_of self.now)) }
    {
        let refs = stored_refs_weight(self.refs)?;
        let is_in_range = id_fits(self.id) && self.meta.fits() && self.scale.fits();
        if !is_in_range {
            return None;
        }
        let locations = located_weight(self.refs, self.locations)?;
        within_weight_limit(self.weight_with(refs, locations))
    }

    /// Whether all stored numbers are in their ranges, the weight is within its limit, both granularities are at least 1, and
    /// there are no locations or as many as refs.
    pub fn fits(&self) -> bool
        ensures { IsTrue result ↔ WayFits (way_of self.now) }
    {
        self.weight_if_fits().is_some()
    }

    /// The same way with texts and lists of its own.
    pub fn to_owned(&self, alloc: Global) -> Result<Way, AllocError>
        ensures { IfOk result (λ owned. owned_way owned ≡ way_of self.now) }
    {
        Ok(Way {
            id: self.id,
            meta: self.meta.to_owned(alloc)?,
            tags: owned_tags(alloc, self.tags)?,
            refs: owned_refs(alloc, self.refs)?,
            locations: owned_locations(alloc, self.locations)?,
            scale: self.scale,
        })
    }
}

/// Whether there are as many locations as refs.
fn as_many(refs: Refs<'_>, locations: Locations<'_>) -> bool
    ensures { IsTrue result
        ↔ (length (locations_left locations.entry) ≡ length (refs_left refs.entry)) }
{
    let mut rest = locations;
    for _reference in refs {
        if rest.next().is_none() {
            return false;
        }
    }
    rest.next().is_none()
}

/// What the locations weigh, if each is in its range and there are as many as refs. Most ways have none, which is seen first.
fn located_weight(refs: Refs<'_>, locations: Locations<'_>) -> Option<u64>
    ensures { SomeIff result (AllByRecursion LocationFits (locations_left locations.entry)
        × AreLocated (refs_left refs.entry) (locations_left locations.entry))
        (min (PART_WEIGHT * length (locations_left locations.entry)) (2 ^ 64 - 1)) }
{
    let mut rest = locations;
    if rest.next().is_none() {
        return Some(0);
    }
    if !locations_fit(locations) || !as_many(refs, locations) {
        return None;
    }
    Some(locations_weight(locations))
}
