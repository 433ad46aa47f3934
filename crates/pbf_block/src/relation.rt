//! A Relation: its fields, its rules phase by phase, and how it is read. Its rule of wire form is [`RELATION_KINDS`].

ghost use Rattle.std.specs.Prelude.{◌≡◌};
ghost use Rattle.pbf_wire.specs.Faults.{found_in};
ghost use Rattle.pbf_wire.specs.Least.{least};
ghost use Rattle.osm_entity.specs.Views.{relation_of};
ghost use Rattle.pbf_block.specs.PrimitiveBlock.{streaming};
ghost use Rattle.pbf_block.specs.Relation.{are_members, relation_structure, relation_values, relation_in};

use crate::entity::{self, ID, INFO, KEYS, VALS, entity_meta, last_wide, tags_in, values};
use crate::ranges::judge_wide;
use osm_entity::{ColumnMembers, Members, RelationRef, Scale};
use pbf_dense::dense_info::judge_stored_sums;
use pbf_strings::Table;
use pbf_wire::{
    Fault, Kind, Message, Reason, column_count, fault_where, judge_low_numbers, last_value_left,
    lesser,
};

// The fields of a Relation beside those that all entities have: the columns of its members.
pub(crate) const ROLES_SID: u64 = 8;

pub(crate) const MEMIDS: u64 = 9;

pub(crate) const TYPES: u64 = 10;

/// How the fields of a Relation are stored.
pub(crate) const RELATION_KINDS: [(u64, Kind); 7] = [
    (ID, Kind::Number),
    (KEYS, Kind::Column),
    (VALS, Kind::Column),
    (INFO, Kind::Bytes),
    (ROLES_SID, Kind::Column),
    (MEMIDS, Kind::Column),
    (TYPES, Kind::Column),
];

/// Whether the columns of a relation's members are of one count.
fn are_members(message: Message<'_>) -> bool
    ensures { result ≡ are_members (found_in message.entry) }
{
    let ids = column_count(message, MEMIDS);
    column_count(message, ROLES_SID) == ids && column_count(message, TYPES) == ids
}

/// The least fault of structure: what all entities have, and the columns of members. It is a call, since few entities are relations.
#[inline(never)]
#[tactic(auto, using(crate::proofs::Parts::lesser_parts))]
pub(crate) fn judge_relation_structure(message: Message<'_>, place: u64) -> Option<Fault>
    ensures { result ≡ least (relation_structure place message.entry.at message.entry.bytes.now) }
{
    let alike = entity::judge_common_structure(message, place);
    let are_alike = are_members(message);
    lesser(alike, fault_where(!are_alike, place, Reason::MemberColumns))
}

/// The least fault of values, if the table has `limit` texts. It is a call for the same reason.
#[inline(never)]
#[tactic(auto, using(crate::proofs::Parts::lesser_parts))]
pub(crate) fn judge_relation_values(message: Message<'_>, limit: u64) -> Option<Fault>
    ensures { result ≡ least (relation_values limit 0 message.entry.at message.entry.bytes.now) }
{
    let id = judge_wide(last_value_left(message.fields(), ID));
    let alike = lesser(id, entity::judge_common_values(message, limit));
    let texts = judge_low_numbers(message, ROLES_SID, limit, Reason::StringIndex);
    let roles = lesser(alike, texts);
    let ids = lesser(roles, judge_stored_sums(message, MEMIDS));
    let kinds = judge_low_numbers(message, TYPES, 3, Reason::MemberKind);
    lesser(ids, kinds)
}

/// The relation of a message. It does not allocate.
#[tactic(auto, unfolding(crate::specs::Relation::relation_in))]
pub(crate) fn relation_in<'a>(
    message: Message<'a>,
    table: &'a Table<'a>,
    scale: Scale,
) -> RelationRef<'a>
    ensures { relation_of result ≡ relation_in streaming table.now scale (found_in message.entry) }
{
    let members = ColumnMembers::new(
        message.column(TYPES),
        values(message, MEMIDS),
        message.column(ROLES_SID),
        table,
    );
    RelationRef::new(
        last_wide(message, ID),
        entity_meta(message, table),
        tags_in(message, table),
        Members::Columns(members),
        scale,
    )
}
