//! A Node: its fields, its rules phase by phase, and how it is read. Its rule of wire form is [`NODE_KINDS`].

ghost use Rattle.std.specs.Prelude.{◌≡◌};
ghost use Rattle.pbf_wire.specs.Faults.{found_in};
ghost use Rattle.pbf_wire.specs.Least.{least};
ghost use Rattle.osm_entity.specs.Views.{node_of};
ghost use Rattle.pbf_block.specs.Node.{node_structure, node_values, node_in};

use crate::entity::{self, ID, INFO, KEYS, VALS, entity_meta, last_signed, tags_in};
use crate::ranges::judge_signed;
use osm_entity::{NodeRef, Scale};
use pbf_strings::Table;
use pbf_wire::{Fault, Kind, Message, judge_missing, last_value_left, lesser};

// The fields of a Node beside those that all entities have.
pub(crate) const NODE_LAT: u64 = 8;

pub(crate) const NODE_LON: u64 = 9;

/// How the fields of a Node are stored.
pub(crate) const NODE_KINDS: [(u64, Kind); 6] = [
    (ID, Kind::Number),
    (KEYS, Kind::Column),
    (VALS, Kind::Column),
    (INFO, Kind::Bytes),
    (NODE_LAT, Kind::Number),
    (NODE_LON, Kind::Number),
];

/// The least fault of structure: what all entities have, and a place. It is a call, since few nodes have a message of their own.
#[inline(never)]
#[tactic(auto, using(crate::proofs::Parts::lesser_parts))]
pub(crate) fn judge_node_structure(message: Message<'_>, place: u64) -> Option<Fault>
    ensures { result ≡ least (node_structure place message.entry.at message.entry.bytes.now) }
{
    let alike = entity::judge_common_structure(message, place);
    let lat = lesser(alike, judge_missing(message, place, NODE_LAT));
    lesser(lat, judge_missing(message, place, NODE_LON))
}

/// The least fault of values, if the table has `limit` texts. It is a call for the same reason.
#[inline(never)]
#[tactic(auto, using(crate::proofs::Parts::lesser_parts))]
pub(crate) fn judge_node_values(message: Message<'_>, limit: u64) -> Option<Fault>
    ensures { result ≡ least (node_values limit 0 message.entry.at message.entry.bytes.now) }
{
    let id = judge_signed(last_value_left(message.fields(), ID));
    let alike = lesser(id, entity::judge_common_values(message, limit));
    let lat = judge_signed(last_value_left(message.fields(), NODE_LAT));
    let lon = judge_signed(last_value_left(message.fields(), NODE_LON));
    lesser(lesser(alike, lat), lon)
}

/// The node of a message. It does not allocate.
#[tactic(auto, unfolding(crate::specs::Node::node_in))]
pub(crate) fn node_in<'a>(message: Message<'a>, table: &'a Table<'a>, scale: Scale) -> NodeRef<'a>
    ensures { node_of result ≡ node_in table.now scale (found_in message.entry) }
{
    NodeRef::new(
        last_signed(message, ID),
        last_signed(message, NODE_LAT),
        last_signed(message, NODE_LON),
        entity_meta(message, table),
        tags_in(message, table),
        scale,
    )
}
