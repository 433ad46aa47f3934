//! The places of dense nodes.

use osm_entity::Scale;
use pbf_wire::Sums;

/// The id of a node, and its place in nanodegrees.
#[derive(Clone, Copy, Debug)]
pub struct Place {
    pub id: i64,
    pub lat: i128,
    pub lon: i128,
}

/// The places of the nodes of a dense message that are still to come: an iterator over three of its columns, which does not
/// allocate. Tags and metadata aren't read.
#[derive(Clone, Copy)]
pub struct Places<'a> {
    pub(crate) ids: Sums<'a>,
    pub(crate) lats: Sums<'a>,
    pub(crate) lons: Sums<'a>,
    pub(crate) scale: Scale,
}

impl<'a> Iterator for Places<'a> {
    ghost use Rattle.std.specs.Iterator.{YieldsFirst, item_count};
    ghost use Rattle.pbf_dense.specs.Places.{places_left};

    type Item = Place;

    ghost next_gives = { YieldsFirst places_left };

    ghost remaining = { item_count places_left };

    /// It is inlined, so that the three cursors of a loop stay in registers.
    #[inline(always)]
    #[tactic(auto, using(crate::proofs::PlaceLemmas::no_lats, crate::proofs::PlaceLemmas::no_lons), unfolding(crate::specs::Places::places_left))]
    fn next(&mut self) -> Option<Place> {
        let id = self.ids.next()?;
        let lat = self.lats.next()?;
        let lon = self.lons.next()?;
        Some(Place {
            id,
            lat: self.scale.nano_lat(lat),
            lon: self.scale.nano_lon(lon),
        })
    }
}
