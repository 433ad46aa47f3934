//! Nodes. Their weight is inlined, since most entities are nodes.

ghost use Rattle.std.specs.Prelude.{◌≡◌, ◌↔◌, ◌-◌, ◌^◌, min, [], IsTrue, IfOk, SomeIff};
ghost use Rattle.std.specs.Option.{option_map};
ghost use Rattle.osm_entity.specs.Scale.{nano_lat, nano_lon, millis};
ghost use Rattle.osm_entity.specs.Sources.{tags_left};
ghost use Rattle.osm_entity.specs.Weight.{node_weight, tags_weight};
ghost use Rattle.osm_entity.specs.Ranges.{NodeFits};
ghost use Rattle.osm_entity.specs.Views.{meta_of, node_of, owned_node};

use crate::meta::{Meta, MetaRef};
use crate::scale::Scale;
use crate::tags::{Tag, Tags, owned_tags};
use crate::weight::{ENTITY_WEIGHT, id_fits, tags_weight, within_weight_limit};
use std::alloc::{AllocError, Global};

/// A node that owns its texts.
#[derive(Debug, Drop)]
pub struct Node {
    pub id: i64,
    /// The stored coordinates, in units that `scale` says.
    pub lat: i64,
    pub lon: i64,
    pub meta: Meta,
    pub tags: Vec<Tag>,
    pub scale: Scale,
}

impl Node {
    /// The same node, lent.
    pub fn view(&self) -> NodeRef<'_>
        ensures { node_of result ≡ owned_node self.now }
    {
        NodeRef {
            id: self.id,
            lat: self.lat,
            lon: self.lon,
            meta: self.meta.view(),
            tags: Tags::Owned(&self.tags),
            scale: self.scale,
        }
    }
}

/// A node, wherever it lies. The fields are those of [`Node`].
#[derive(Clone, Copy)]
pub struct NodeRef<'a> {
    pub id: i64,
    pub lat: i64,
    pub lon: i64,
    pub meta: MetaRef<'a>,
    pub tags: Tags<'a>,
    pub scale: Scale,
}

impl<'a> NodeRef<'a> {
    /// The node of these parts.
    pub fn new(
        id: i64,
        lat: i64,
        lon: i64,
        meta: MetaRef<'a>,
        tags: Tags<'a>,
        scale: Scale,
    ) -> NodeRef<'a>
        ensures { node_of result ≡ record {
          id = id;
          lat = lat;
          lon = lon;
          meta = meta_of meta.entry;
          tags = tags_left tags.entry;
          scale = scale;
        } }
    {
        NodeRef {
            id,
            lat,
            lon,
            meta,
            tags,
            scale,
        }
    }

    /// The node's id.
    pub fn id(&self) -> i64
        ensures { result ≡ (node_of self.now).id }
    {
        self.id
    }

    /// The stored latitude.
    pub fn lat(&self) -> i64
        ensures { result ≡ (node_of self.now).lat }
    {
        self.lat
    }

    /// The stored longitude.
    pub fn lon(&self) -> i64
        ensures { result ≡ (node_of self.now).lon }
    {
        self.lon
    }

    /// What the stored numbers mean.
    pub fn scale(&self) -> Scale
        ensures { result ≡ (node_of self.now).scale }
    {
        self.scale
    }

    /// The metadata.
    pub fn meta(&self) -> MetaRef<'a>
        ensures { meta_of result ≡ (node_of self.now).meta }
    {
        self.meta
    }

    /// The tags in order.
    pub fn tags(&self) -> Tags<'a>
        ensures { tags_left result ≡ (node_of self.now).tags }
    {
        self.tags
    }

    /// Whether it is seen at once that the node has no tag. No column is read for that, so a `false` says nothing.
    pub fn is_bare(&self) -> bool
        ensures { IsTrue result → (node_of self.now).tags ≡ [] }
    {
        self.tags.are_none()
    }

    /// What the tags weigh.
    fn tags_weight(&self) -> u64
        ensures { result ≡ min (tags_weight (node_of self.now).tags) (2 ^ 64 - 1) }
    {
        if self.is_bare() {
            return 0;
        }
        tags_weight(self.tags)
    }

    /// The latitude in nanodegrees.
    pub fn nano_lat(&self) -> i128
        ensures { result ≡ nano_lat (node_of self.now).scale (node_of self.now).lat }
    {
        self.scale.nano_lat(self.lat)
    }

    /// The longitude in nanodegrees.
    pub fn nano_lon(&self) -> i128
        ensures { result ≡ nano_lon (node_of self.now).scale (node_of self.now).lon }
    {
        self.scale.nano_lon(self.lon)
    }

    /// The time in milliseconds, from 1970 on.
    pub fn millis(&self) -> Option<i128>
        ensures { result
            ≡ option_map (millis (node_of self.now).scale) (node_of self.now).meta.timestamp }
    {
        self.meta.millis(self.scale)
    }

    /// What the node counts for in a block, or the greatest number if it is more.
    pub fn weight(&self) -> u64
        ensures { result ≡ min (node_weight (node_of self.now)) (2 ^ 64 - 1) }
    {
        self.tags_weight()
            .saturating_add(self.meta.user_weight())
            .saturating_add(ENTITY_WEIGHT)
    }

    /// What the node counts for in a block, if [`NodeRef::fits`] holds of it, and otherwise `None`.
    #[inline(always)]
    pub fn weight_if_fits(&self) -> Option<u64>
        ensures { SomeIff result (NodeFits (node_of self.now)) (node_weight (node_of self.now)) }
    {
        let is_in_range = id_fits(self.id)
            && id_fits(self.lat)
            && id_fits(self.lon)
            && self.meta.fits()
            && self.scale.fits();
        if !is_in_range {
            return None;
        }
        within_weight_limit(self.weight())
    }

    /// Whether all stored numbers are in their ranges, the weight is within its limit, and both granularities are at least 1.
    pub fn fits(&self) -> bool
        ensures { IsTrue result ↔ NodeFits (node_of self.now) }
    {
        self.weight_if_fits().is_some()
    }

    /// The same node with texts of its own.
    pub fn to_owned(&self, alloc: Global) -> Result<Node, AllocError>
        ensures { IfOk result (λ owned. owned_node owned ≡ node_of self.now) }
    {
        Ok(Node {
            id: self.id,
            lat: self.lat,
            lon: self.lon,
            meta: self.meta.to_owned(alloc)?,
            tags: owned_tags(alloc, self.tags)?,
            scale: self.scale,
        })
    }
}
