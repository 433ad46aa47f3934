//! What a Node, a Way and a Relation have in common: fields, rules phase by phase, and what is read of a message.

ghost use Rattle.std.specs.Prelude.{◌≡◌, pos};
ghost use Rattle.pbf_wire.specs.Cursors.{sums_left};
ghost use Rattle.pbf_wire.specs.Faults.{embedded, found_in};
ghost use Rattle.pbf_wire.specs.Least.{least};
ghost use Rattle.pbf_wire.specs.Signed.{unzigzag, low_i64};
ghost use Rattle.osm_entity.specs.Sources.{tags_left};
ghost use Rattle.osm_entity.specs.Views.{meta_of};
ghost use Rattle.pbf_block.specs.Entity.{entity_structure, entity_values, tags_in, values_in};
ghost use Rattle.pbf_block.specs.Info.{info_in};
ghost use Rattle.pbf_block.specs.PrimitiveBlock.{streaming};
ghost use Rattle.pbf_block.specs.Scale.{number_or};
ghost use Rattle.pbf_block.specs.declared.entity.TheConstants.{INFO};

use crate::info::{InfoRanges, meta_in};
use osm_entity::{MetaRef, PairedTags, STORED_LIMIT, Tags};
use pbf_strings::Table;
use pbf_wire::{
    Fault, InField, Message, Reason, Sums, column_count, fault_where, judge_fields,
    judge_low_numbers, judge_missing, judge_twice, last_field, last_number, lesser, low_i64,
    unzigzag,
};

pub(crate) const ID: u64 = 1;

pub(crate) const KEYS: u64 = 2;

pub(crate) const VALS: u64 = 3;

pub(crate) const INFO: u64 = 4;

/// The least fault of structure of what all entities have: an id, at most one Info, and as many keys as values.
#[tactic(auto, using(crate::proofs::Parts::lesser_parts))]
pub(crate) fn judge_common_structure(message: Message<'_>, place: u64) -> Option<Fault>
    ensures { result ≡ least (entity_structure place (found_in message.entry)) }
{
    let id = judge_missing(message, place, ID);
    let infos = judge_twice(message, INFO);
    let (keys, vals) = (column_count(message, KEYS), column_count(message, VALS));
    let tags = fault_where(keys != vals, place, Reason::TagColumns);
    lesser(lesser(id, infos), tags)
}

/// The least fault of the values of tags and Infos, if the table has `limit` texts. An id is stored in two ways, and judged by its kind.
#[tactic(auto, using(crate::proofs::Parts::lesser_parts))]
pub(crate) fn judge_common_values(message: Message<'_>, limit: u64) -> Option<Fault>
    ensures { result ≡ least (entity_values limit (found_in message.entry)) }
{
    let keys = judge_low_numbers(message, KEYS, limit, Reason::StringIndex);
    let vals = judge_low_numbers(message, VALS, limit, Reason::StringIndex);
    let infos = judge_fields(message, &InField(INFO, InfoRanges { limit }));
    lesser(lesser(keys, vals), infos)
}

/// The last number of a field that stores it in zigzag; 0 if it is absent.
pub(crate) fn last_signed(message: Message<'_>, number: u64) -> i64
    ensures { result ≡ number_or (pos 0) unzigzag number (found_in message.entry) }
{
    last_number(message, number).map_or(0, |last| unzigzag(last))
}

/// The same of a field that stores it in two's complement.
pub(crate) fn last_wide(message: Message<'_>, number: u64) -> i64
    ensures { result ≡ number_or (pos 0) low_i64 number (found_in message.entry) }
{
    last_number(message, number).map_or(0, |last| low_i64(last))
}

/// The values of a column of differences.
pub(crate) fn values(message: Message<'_>, number: u64) -> Sums<'_>
    ensures { sums_left result ≡ values_in streaming number (found_in message.entry) }
{
    Sums::new(message.column(number), STORED_LIMIT)
}

/// The tags of an entity, whose texts are in this table.
pub(crate) fn tags_in<'a>(message: Message<'a>, table: &'a Table<'a>) -> Tags<'a>
    ensures { tags_left result ≡ tags_in table.now (found_in message.entry) }
{
    Tags::Paired(PairedTags::new(message.column(KEYS), message.column(VALS), table))
}

/// The metadata of an entity, whose user is in this table.
pub(crate) fn entity_meta<'a>(message: Message<'a>, table: &'a Table<'a>) -> MetaRef<'a>
    ensures { meta_of result ≡ info_in table.now (embedded INFO (found_in message.entry)) }
{
    meta_in(last_field(message, INFO), table)
}
