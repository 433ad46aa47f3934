//! A PrimitiveGroup: its fields, and its rules phase by phase.

ghost use Rattle.std.specs.Prelude.{◌≡◌, ◌+◌, ◌*◌, ◌≤◌, ℕ, List, [], IsTrue, Ok, length};
ghost use Rattle.pbf_wire.specs.Least.{least};
ghost use Rattle.pbf_wire.specs.Fields.{occurrence};
ghost use Rattle.pbf_wire.specs.Faults.{found_in};
ghost use Rattle.pbf_strings.specs.Texts.{longest as longest_of};
ghost use Rattle.osm_entity.specs.Views.{entity_of};
ghost use Rattle.pbf_block.specs.Clean.{AreCleanWays, IsCleanMember};
ghost use Rattle.pbf_block.specs.Group.{member_wire, holds_entities, first_member, is_of_other_kind, entities_structure, member_structure, group_structure, member_values, weight_fault, member_weights};
ghost use Rattle.pbf_block.specs.PrimitiveBlock.{streaming};
ghost use Rattle.pbf_wire.specs.declared.limits.TheConstants.{SUM_LIMIT};

use crate::entity::INFO;
use crate::info::INFO_KINDS;
use crate::kinds::Kinds;
use crate::node::{self, NODE_KINDS};
use crate::relation::{self, RELATION_KINDS};
use crate::runs::{Run, run_in};
use crate::way;
use osm_entity::{ENTITY_WEIGHT, EntityRef, HIGHEST_WEIGHT, PART_WEIGHT, Scale};
use pbf_dense::{Dense, KEYS_VALS};
use pbf_strings::Table;
use pbf_wire::{
    Fault, Field, Judge, Kind, Message, Payload, Reason, column_count, fault_where, judge_fields,
    judge_nested, judge_twice, lesser,
};

pub(crate) const NODES: u64 = 1;

pub(crate) const DENSE: u64 = 2;

pub(crate) const WAYS: u64 = 3;

pub(crate) const RELATIONS: u64 = 4;

pub(crate) const CHANGESETS: u64 = 5;

/// How the fields of a PrimitiveGroup are stored.
pub(crate) const GROUP_KINDS: [(u64, Kind); 5] = [
    (NODES, Kind::Bytes),
    (DENSE, Kind::Bytes),
    (WAYS, Kind::Bytes),
    (RELATIONS, Kind::Bytes),
    (CHANGESETS, Kind::Bytes),
];

// Wire form: that of the entities, beside the group's own fields.

/// The wire form of the entities that a field of a group holds.
#[derive(Clone, Copy)]
pub(crate) struct GroupFieldForm;

impl Judge for GroupFieldForm {
    ghost faults = { λ _. member_wire };

    fn judge(&self, field: Field<'_>) -> Option<Fault> {
        let message = field.message()?;
        match field.number {
            NODES => judge_nested(message, &NODE_KINDS, INFO, &INFO_KINDS),
            DENSE => Dense::judge_wire(message),
            WAYS => way::judge_way_wire(message),
            RELATIONS => judge_nested(message, &RELATION_KINDS, INFO, &INFO_KINDS),
            _ => None,
        }
    }
}

// Structure.

/// Whether a field of this number holds entities.
fn is_member(number: u64) -> bool
    ensures { result ≡ holds_entities number }
{
    number == NODES || number == DENSE || number == WAYS || number == RELATIONS
}

/// The number of the first field that holds entities.
fn first_member(message: Message<'_>) -> Option<u64>
    ensures { result ≡ first_member (found_in message.entry) }
{
    let mut fields = message.found();
    let first = fields.find(|field| is_member(field.number));
    first.map(|field| field.number)
}

/// Whether a field holds entities of another kind than the first.
fn is_other(first: Option<u64>, number: u64) -> bool
    ensures { result ≡ is_of_other_kind first number }
{
    is_member(number) && number != first.unwrap_or(number)
}

/// The least fault of structure of the entities that a field of a group holds.
fn judge_entities(field: Field<'_>) -> Option<Fault>
    ensures { result ≡ least (entities_structure (occurrence field.entry)) }
{
    let message = field.message()?;
    match field.number {
        NODES => node::judge_node_structure(message, field.offset),
        DENSE => Dense::judge_structure(message, field.offset),
        WAYS => way::judge_way_structure(message, field.offset),
        RELATIONS => relation::judge_relation_structure(message, field.offset),
        _ => None,
    }
}

/// The structure of a field of a group, whose first field of entities has the number `first`.
#[derive(Clone, Copy)]
struct MemberStructure {
    first: Option<u64>,
}

impl Judge for MemberStructure {
    ghost faults = { λ members. member_structure members.first };

    #[tactic(auto, using(crate::proofs::Parts::lesser_parts))]
    fn judge(&self, field: Field<'_>) -> Option<Fault> {
        let number = field.number;
        let mixed = is_other(self.first, number);
        let kinds = lesser(
            fault_where(mixed, field.offset, Reason::MixedGroup),
            fault_where(number == CHANGESETS, field.offset, Reason::Changesets),
        );
        lesser(kinds, judge_entities(field))
    }
}

/// The least fault of structure of a group: a second dense message, entities of two kinds, changesets, and what its entities lack.
#[tactic(auto, using(crate::proofs::Parts::lesser_parts))]
pub(crate) fn judge_group_structure(message: Message<'_>) -> Option<Fault>
    ensures { result ≡ least (group_structure 0 message.entry.at message.entry.bytes.now) }
{
    let members = MemberStructure {
        first: first_member(message),
    };
    lesser(judge_twice(message, DENSE), judge_fields(message, &members))
}

// Values: those of the entities.

/// The values of the entities that a field of a group holds, whose table has `limit` texts.
#[derive(Clone, Copy)]
pub(crate) struct GroupFieldValues {
    pub(crate) limit: u64,
    ghost limited: { limit ≤ SUM_LIMIT },
}

impl Judge for GroupFieldValues {
    ghost faults = { λ members. member_values members.limit };

    fn judge(&self, field: Field<'_>) -> Option<Fault> {
        let message = field.message()?;
        match field.number {
            NODES => node::judge_node_values(message, self.limit),
            DENSE => Dense::judge_values(message, self.limit),
            WAYS => way::judge_way_values(message, self.limit),
            RELATIONS => relation::judge_relation_values(message, self.limit),
            _ => None,
        }
    }
}

// Wire form, structure and values in one walk.

/// Whether a field holds a way in which no phase before the weights finds a fault, if the table has `limit` texts.
fn is_clean_way(field: Field<'_>, limit: u64) -> bool
    ensures { IsTrue result → IsCleanMember limit (Ok (occurrence field.entry)) }
{
    if field.number != WAYS {
        return false;
    }
    let Some(message) = field.message() else {
        return false;
    };
    way::is_sound_way(message, field.offset, limit)
}

/// Whether a group holds only ways, and no phase before the weights finds a fault in it, if the table has `limit` texts: found in
/// one walk. `false` says nothing.
pub(crate) fn has_clean_ways(message: Message<'_>, limit: u64) -> bool
    ensures { IsTrue result
        → AreCleanWays limit message.entry.at message.entry.bytes.now }
{
    for item in message.fields() {
        let Ok(field) = item else {
            return false;
        };
        if !is_clean_way(field, limit) {
            return false;
        }
    }
    true
}

// Weights of the entities.

/// Whether an entity is too heavy.
fn judge_weight(entity: EntityRef<'_>, place: u64) -> Option<Fault>
    ensures { result ≡ least (weight_fault place (entity_of entity.entry)) }
{
    fault_where(entity.weight() > HIGHEST_WEIGHT, place, Reason::EntityLarge)
}

/// Whether entities of so many tags, refs, locations and members can't be too heavy, if no text is longer than `longest`.
#[tactic(auto, using(crate::proofs::LightLemmas::product_small))]
fn are_light(parts: u64, longest: u64) -> bool
    ensures { IsTrue result
        → ENTITY_WEIGHT + longest + parts * (PART_WEIGHT + 2 * longest) ≤ HIGHEST_WEIGHT }
{
    parts <= HIGHEST_WEIGHT
        && longest <= HIGHEST_WEIGHT
        && ENTITY_WEIGHT + longest + parts * (PART_WEIGHT + 2 * longest) <= HIGHEST_WEIGHT
}

/// Whether no entity of a field can be too heavy, by how much there is of it, if no text is longer than `longest`. None is
/// read.
#[tactic(auto, using(crate::proofs::LightLemmas::dense_member, crate::proofs::LightLemmas::other_member))]
fn is_light(field: Field<'_>, longest: u64) -> bool
    ensures { (table : List (List ℕ)) (scale : Scale) → longest_of table ≤ longest → IsTrue result
        → member_weights streaming table scale (occurrence field.entry) ≡ [] }
{
    let Payload::Bytes(bytes, at) = field.payload else {
        return false;
    };
    let message = Message { bytes, at };
    if field.number == DENSE {
        let numbers = column_count(message, KEYS_VALS) as u64;
        return are_light(numbers / 2, longest);
    }
    let length = message.bytes.len() as u64;
    length <= HIGHEST_WEIGHT && are_light(3 * length, longest)
}

/// `EntityLarge` at a field of a group, if one of its entities is too heavy.
fn judge_members<'a>(field: Field<'a>, table: &'a Table<'a>, scale: Scale) -> Option<Fault>
    ensures { result ≡ least (member_weights streaming table.now scale (occurrence field.entry)) }
{
    match run_in(field, table, scale, Kinds::all()) {
        Run::Nothing => None,
        Run::Node(unmade) => judge_weight(EntityRef::Node(unmade.node()), field.offset),
        Run::Way(unmade) => judge_weight(EntityRef::Way(unmade.way()), field.offset),
        Run::Relation(unmade) => judge_weight(EntityRef::Relation(unmade.relation()), field.offset),
        Run::Dense(unmade) => unmade.nodes().judge_nodes(field.offset),
    }
}

/// The weights of the entities that a field of a group holds, if no text is longer than `longest`: most fields are short enough
/// to be skipped.
#[derive(Clone, Copy)]
pub(crate) struct GroupFieldWeights<'a> {
    pub(crate) table: &'a Table<'a>,
    pub(crate) scale: Scale,
    pub(crate) longest: u64,
    ghost short: { longest_of table.now ≤ longest },
}

impl Judge for GroupFieldWeights<'_> {
    ghost faults = { λ members. member_weights streaming members.table.now members.scale };

    fn judge(&self, field: Field<'_>) -> Option<Fault> {
        if is_light(field, self.longest) {
            return None;
        }
        judge_members(field, self.table, self.scale)
    }
}
