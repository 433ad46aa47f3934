//! Entities of any kind. Their weight is inlined, since a caller often knows the kind.

ghost use Rattle.std.specs.Prelude.{◌≡◌, ◌↔◌, ◌-◌, ◌^◌, min, IsTrue, SomeIff};
ghost use Rattle.std.specs.Option.{option_map};
ghost use Rattle.osm_entity.specs.Scale.{millis};
ghost use Rattle.osm_entity.specs.Entity.{entity_id, entity_meta, entity_tags, entity_scale};
ghost use Rattle.osm_entity.specs.Sources.{tags_left};
ghost use Rattle.osm_entity.specs.Views.{meta_of, entity_of};
ghost use Rattle.osm_entity.specs.Weight.{entity_weight};
ghost use Rattle.osm_entity.specs.Ranges.{EntityFits};

use crate::meta::MetaRef;
use crate::node::NodeRef;
use crate::relation::RelationRef;
use crate::scale::Scale;
use crate::tags::Tags;
use crate::way::WayRef;

/// A node, a way or a relation, wherever it lies.
#[derive(Clone, Copy)]
pub enum EntityRef<'a> {
    Node(NodeRef<'a>),
    Way(WayRef<'a>),
    Relation(RelationRef<'a>),
}

/// What an entity of any kind has.
#[derive(Clone, Copy)]
struct EntityHead<'a> {
    id: i64,
    meta: MetaRef<'a>,
    tags: Tags<'a>,
    scale: Scale,
}

impl<'a> EntityRef<'a> {
    /// What it has, whatever its kind is.
    fn head(&self) -> EntityHead<'a>
        ensures id { result.id ≡ entity_id (entity_of self.now) }
        ensures meta { meta_of result.meta ≡ entity_meta (entity_of self.now) }
        ensures tags { tags_left result.tags ≡ entity_tags (entity_of self.now) }
        ensures scale { result.scale ≡ entity_scale (entity_of self.now) }
    {
        let (id, meta, tags, scale) = match self {
            EntityRef::Node(node) => (node.id(), node.meta(), node.tags(), node.scale()),
            EntityRef::Way(way) => (way.id(), way.meta(), way.tags(), way.scale()),
            EntityRef::Relation(relation) => (
                relation.id(),
                relation.meta(),
                relation.tags(),
                relation.scale(),
            ),
        };
        EntityHead {
            id,
            meta,
            tags,
            scale,
        }
    }

    /// The entity's id. Nodes, ways and relations have ids of their own.
    pub fn id(&self) -> i64
        ensures { result ≡ entity_id (entity_of self.now) }
    {
        self.head().id
    }

    /// What the stored numbers mean.
    pub fn scale(&self) -> Scale
        ensures { result ≡ entity_scale (entity_of self.now) }
    {
        self.head().scale
    }

    /// The metadata.
    pub fn meta(&self) -> MetaRef<'a>
        ensures { meta_of result ≡ entity_meta (entity_of self.now) }
    {
        self.head().meta
    }

    /// The tags in order.
    pub fn tags(&self) -> Tags<'a>
        ensures { tags_left result ≡ entity_tags (entity_of self.now) }
    {
        self.head().tags
    }

    /// The time in milliseconds, from 1970 on.
    pub fn millis(&self) -> Option<i128>
        ensures { result ≡ option_map (millis (entity_scale (entity_of self.now)))
            (entity_meta (entity_of self.now)).timestamp }
    {
        let head = self.head();
        head.meta.millis(head.scale)
    }

    /// What the entity counts for in a block, or the greatest number if it is more: [`ENTITY_WEIGHT`](crate::ENTITY_WEIGHT),
    /// [`PART_WEIGHT`](crate::PART_WEIGHT) for each tag, ref, location and member, and the lengths of all its texts.
    pub fn weight(&self) -> u64
        ensures { result ≡ min (entity_weight (entity_of self.now)) (2 ^ 64 - 1) }
    {
        match self {
            EntityRef::Node(node) => node.weight(),
            EntityRef::Way(way) => way.weight(),
            EntityRef::Relation(relation) => relation.weight(),
        }
    }

    /// What the entity counts for in a block, if [`EntityRef::fits`] holds of it, and otherwise `None`: all of it is read once.
    #[inline(always)]
    pub fn weight_if_fits(&self) -> Option<u64>
        ensures { SomeIff result (EntityFits (entity_of self.now))
            (entity_weight (entity_of self.now)) }
    {
        match self {
            EntityRef::Node(node) => node.weight_if_fits(),
            EntityRef::Way(way) => way.weight_if_fits(),
            EntityRef::Relation(relation) => relation.weight_if_fits(),
        }
    }

    /// Whether all stored numbers are in their ranges, the weight is within its limit, both granularities are at least 1, and
    /// a way has no locations or as many as refs.
    pub fn fits(&self) -> bool
        ensures { IsTrue result ↔ EntityFits (entity_of self.now) }
    {
        self.weight_if_fits().is_some()
    }
}
