//! The locations of a way's refs, wherever they lie.

ghost use Rattle.std.specs.Prelude.{◌≡◌, IfOk};
ghost use Rattle.osm_entity.specs.Sources.{locations_left};

use crate::scale::Scale;
use pbf_wire::Sums;
use std::alloc::{AllocError, Global};

/// The locations of a way in a block that are still to come: the values of two columns.
#[derive(Clone, Copy)]
pub struct SummedLocations<'a> {
    lats: Sums<'a>,
    lons: Sums<'a>,
}

impl<'a> SummedLocations<'a> {
    ghost use Rattle.std.specs.List.{zip};
    ghost use Rattle.pbf_wire.specs.Cursors.{sums_left};
    ghost use Rattle.osm_entity.specs.Sources.{summed_locations_left};

    /// As many locations as both columns have values for.
    pub fn new(lats: Sums<'a>, lons: Sums<'a>) -> SummedLocations<'a>
        ensures { summed_locations_left result ≡ zip (sums_left lats.entry) (sums_left lons.entry) }
    {
        SummedLocations { lats, lons }
    }
}

impl<'a> Iterator for SummedLocations<'a> {
    ghost use Rattle.std.specs.Iterator.{YieldsFirst, item_count};
    ghost use Rattle.osm_entity.specs.Sources.{summed_locations_left};

    type Item = (i64, i64);

    ghost next_gives = { YieldsFirst summed_locations_left };

    ghost remaining = { item_count summed_locations_left };

    #[tactic(auto, using(crate::proofs::TagLemmas::zip_nothing))]
    fn next(&mut self) -> Option<(i64, i64)> {
        let lat = self.lats.next()?;
        let lon = self.lons.next()?;
        Some((lat, lon))
    }
}

/// The locations of a way that are still to come, each a stored latitude and longitude.
#[derive(Clone, Copy)]
pub enum Locations<'a> {
    Owned(&'a [(i64, i64)]),
    Summed(SummedLocations<'a>),
}

impl<'a> Iterator for Locations<'a> {
    ghost use Rattle.std.specs.Iterator.{YieldsFirst, item_count};
    ghost use Rattle.osm_entity.specs.Sources.{locations_left};

    type Item = (i64, i64);

    ghost next_gives = { YieldsFirst locations_left };

    ghost remaining = { item_count locations_left };

    fn next(&mut self) -> Option<(i64, i64)> {
        match self {
            Locations::Owned(locations) => {
                let (first, rest) = locations.split_first()?;
                *locations = rest;
                Some(*first)
            }
            Locations::Summed(locations) => locations.next(),
        }
    }
}

/// The locations of a way that are still to come, each a latitude and longitude in nanodegrees.
#[derive(Clone, Copy)]
pub struct NanoLocations<'a> {
    stored: Locations<'a>,
    scale: Scale,
}

impl<'a> NanoLocations<'a> {
    ghost use Rattle.std.specs.Prelude.{map};
    ghost use Rattle.osm_entity.specs.Entity.{nano_location};
    ghost use Rattle.osm_entity.specs.Sources.{nano_locations_left};

    /// What these stored locations mean.
    pub fn new(stored: Locations<'a>, scale: Scale) -> NanoLocations<'a>
        ensures { nano_locations_left result
            ≡ map (nano_location scale) (locations_left stored.entry) }
    {
        NanoLocations { stored, scale }
    }
}

impl<'a> Iterator for NanoLocations<'a> {
    ghost use Rattle.std.specs.Iterator.{YieldsFirst, item_count};
    ghost use Rattle.osm_entity.specs.Sources.{nano_locations_left};

    type Item = (i128, i128);

    ghost next_gives = { YieldsFirst nano_locations_left };

    ghost remaining = { item_count nano_locations_left };

    fn next(&mut self) -> Option<(i128, i128)> {
        let (lat, lon) = self.stored.next()?;
        Some((self.scale.nano_lat(lat), self.scale.nano_lon(lon)))
    }
}

/// The same locations in a vector.
pub(crate) fn owned_locations(
    alloc: Global,
    locations: Locations<'_>,
) -> Result<Vec<(i64, i64)>, AllocError>
    ensures { IfOk result (λ owned. owned.items ≡ locations_left locations.entry) }
{
    locations.collect(alloc)
}
