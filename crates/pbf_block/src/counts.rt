//! How many entities there are.

ghost use Rattle.std.specs.Prelude.{◌≡◌, [], ℕ, List};
ghost use Rattle.std.specs.List.{flat_map};
ghost use Rattle.pbf_wire.specs.Fields.{occurrence};
ghost use Rattle.pbf_wire.specs.Faults.{found_in};
ghost use Rattle.osm_entity.specs.declared.scale.Scale.{Scale};
ghost use Rattle.osm_entity.specs.Views.{entity_of};
ghost use Rattle.pbf_block.specs.Group.{in_group, member_entities};
ghost use Rattle.pbf_block.specs.Numbers.{counted_with, count_one, counts_of, counting};

use crate::group::{DENSE, NODES, RELATIONS, WAYS};
use crate::members::GroupFields;
use crate::primitive_block::PRIMITIVEGROUP;
use osm_entity::EntityRef;
use pbf_dense::Dense;
use pbf_wire::{Field, Message, Payload};

/// The numbers of nodes, ways and relations, each the greatest `u64` if there are more.
#[derive(Clone, Copy, Debug, PartialEq, Eq)]
pub struct Counts {
    pub nodes: u64,
    pub ways: u64,
    pub relations: u64,
}

impl Counts {
    /// Nothing is counted yet.
    pub fn none() -> Counts
        ensures { result ≡ counts_of [] }
    {
        Counts {
            nodes: 0,
            ways: 0,
            relations: 0,
        }
    }

    /// Counts one more entity.
    pub fn take(&mut self, entity: &EntityRef<'_>)
        ensures { self.new ≡ count_one self.old (entity_of entity.now) }
    {
        match entity {
            EntityRef::Node(_) => self.nodes = self.nodes.saturating_add(1),
            EntityRef::Way(_) => self.ways = self.ways.saturating_add(1),
            EntityRef::Relation(_) => self.relations = self.relations.saturating_add(1),
        }
    }

    /// Counts what the other counts.
    pub fn add(&mut self, other: Counts)
        ensures { self.new ≡ counted_with self.old other }
    {
        self.nodes = self.nodes.saturating_add(other.nodes);
        self.ways = self.ways.saturating_add(other.ways);
        self.relations = self.relations.saturating_add(other.relations);
    }
}

/// Counts the entities of a field of a group. Of a dense message the ids are counted, and none is decoded.
fn count_member(field: Field<'_>) -> Counts
    ensures { (table : List (List ℕ)) (scale : Scale)
        → result ≡ counts_of (member_entities counting table scale (occurrence field.entry)) }
{
    let mut counts = Counts::none();
    if let Payload::Bytes(bytes, at) = field.payload {
        match field.number {
            NODES => counts.nodes = 1,
            DENSE => counts.nodes = Dense::count(Message { bytes, at }) as u64,
            WAYS => counts.ways = 1,
            RELATIONS => counts.relations = 1,
            _ => {}
        }
    }
    counts
}

/// Counts the entities of a payload, as they are if it has no wire fault. No entity is made.
#[tactic(auto, using(crate::proofs::NumberLemmas::counts_more, crate::proofs::NumberLemmas::counts_nothing))]
pub(crate) fn count_entities(payload: Message<'_>) -> Counts
    ensures { (table : List (List ℕ)) (scale : Scale)
        → result ≡ counts_of
        (flat_map (in_group (member_entities counting table scale)) (found_in payload.entry)) }
{
    let mut counts = Counts::none();
    for field in GroupFields::over(payload) {
        counts.add(count_member(field));
    }
    counts
}
