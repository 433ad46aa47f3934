//! Relations.

ghost use Rattle.std.specs.Prelude.{◌≡◌, ◌↔◌, ◌-◌, ◌^◌, min, IsTrue, IfOk, SomeIff};
ghost use Rattle.std.specs.Option.{option_map};
ghost use Rattle.osm_entity.specs.Scale.{millis};
ghost use Rattle.osm_entity.specs.Sources.{tags_left, members_left};
ghost use Rattle.osm_entity.specs.Views.{meta_of, relation_of, owned_relation};
ghost use Rattle.osm_entity.specs.Weight.{members_weight, relation_weight};
ghost use Rattle.osm_entity.specs.Ranges.{RelationFits};

use crate::member::{Member, Members, owned_members};
use crate::meta::{Meta, MetaRef};
use crate::scale::Scale;
use crate::tags::{Tag, Tags, owned_tags};
use crate::weight::{
    ENTITY_WEIGHT, id_fits, members_weight, stored_members_weight, tags_weight, within_weight_limit,
};
use std::alloc::{AllocError, Global};

/// A relation that owns its texts and members.
#[derive(Debug, Drop)]
pub struct Relation {
    pub id: i64,
    pub meta: Meta,
    pub tags: Vec<Tag>,
    pub members: Vec<Member>,
    pub scale: Scale,
}

impl Relation {
    /// The same relation, lent.
    pub fn view(&self) -> RelationRef<'_>
        ensures { relation_of result ≡ owned_relation self.now }
    {
        RelationRef {
            id: self.id,
            meta: self.meta.view(),
            tags: Tags::Owned(&self.tags),
            members: Members::Owned(&self.members),
            scale: self.scale,
        }
    }
}

/// A relation, wherever it lies.
#[derive(Clone, Copy)]
pub struct RelationRef<'a> {
    id: i64,
    meta: MetaRef<'a>,
    tags: Tags<'a>,
    members: Members<'a>,
    scale: Scale,
}

impl<'a> RelationRef<'a> {
    /// The relation of these parts.
    pub fn new(
        id: i64,
        meta: MetaRef<'a>,
        tags: Tags<'a>,
        members: Members<'a>,
        scale: Scale,
    ) -> RelationRef<'a>
        ensures { relation_of result ≡ record {
          id = id;
          meta = meta_of meta.entry;
          tags = tags_left tags.entry;
          members = members_left members.entry;
          scale = scale;
        } }
    {
        RelationRef {
            id,
            meta,
            tags,
            members,
            scale,
        }
    }

    /// The relation's id.
    pub fn id(&self) -> i64
        ensures { result ≡ (relation_of self.now).id }
    {
        self.id
    }

    /// What the stored numbers mean.
    pub fn scale(&self) -> Scale
        ensures { result ≡ (relation_of self.now).scale }
    {
        self.scale
    }

    /// The metadata.
    pub fn meta(&self) -> MetaRef<'a>
        ensures { meta_of result ≡ (relation_of self.now).meta }
    {
        self.meta
    }

    /// The tags in order.
    pub fn tags(&self) -> Tags<'a>
        ensures { tags_left result ≡ (relation_of self.now).tags }
    {
        self.tags
    }

    /// The members in order.
    pub fn members(&self) -> Members<'a>
        ensures { members_left result ≡ (relation_of self.now).members }
    {
        self.members
    }

    /// The time in milliseconds, from 1970 on.
    pub fn millis(&self) -> Option<i128>
        ensures { result ≡ option_map (millis (relation_of self.now).scale)
            (relation_of self.now).meta.timestamp }
    {
        self.meta.millis(self.scale)
    }

    /// The weight of the relation, whose members weigh this.
    fn weight_with(&self, members: u64) -> u64
        requires { members ≡ min (members_weight (relation_of self.now).members) (2 ^ 64 - 1) }
        ensures { result ≡ min (relation_weight (relation_of self.now)) (2 ^ 64 - 1) }
    {
        tags_weight(self.tags)
            .saturating_add(members)
            .saturating_add(self.meta.user_weight())
            .saturating_add(ENTITY_WEIGHT)
    }

    /// What the relation counts for in a block, or the greatest number if it is more.
    pub fn weight(&self) -> u64
        ensures { result ≡ min (relation_weight (relation_of self.now)) (2 ^ 64 - 1) }
    {
        self.weight_with(members_weight(self.members))
    }

    /// What the relation counts for in a block, if [`RelationRef::fits`] holds of it, and otherwise `None`. The members are read once.
    pub fn weight_if_fits(&self) -> Option<u64>
        ensures { SomeIff result (RelationFits (relation_of self.now))
            (relation_weight (relation_of self.now)) }
    {
        let members = stored_members_weight(self.members)?;
        if !(id_fits(self.id) && self.meta.fits() && self.scale.fits()) {
            return None;
        }
        within_weight_limit(self.weight_with(members))
    }

    /// Whether all stored numbers are in their ranges, the weight is within its limit, and both granularities are at least 1.
    pub fn fits(&self) -> bool
        ensures { IsTrue result ↔ RelationFits (relation_of self.now) }
    {
        self.weight_if_fits().is_some()
    }

    /// The same relation with texts and members of its own.
    pub fn to_owned(&self, alloc: Global) -> Result<Relation, AllocError>
        ensures { IfOk result (λ owned. owned_relation owned ≡ relation_of self.now) }
    {
        Ok(Relation {
            id: self.id,
            meta: self.meta.to_owned(alloc)?,
            tags: owned_tags(alloc, self.tags)?,
            members: owned_members(alloc, self.members)?,
            scale: self.scale,
        })
    }
}
