//! A PrimitiveBlock: its fields, and its rules phase by phase.

ghost use Rattle.std.specs.Prelude.{◌≡◌, ◌≤◌, ◌++◌, [], IsTrue};
ghost use Rattle.std.specs.List.{flat_map};
ghost use Rattle.pbf_wire.specs.declared.fault.Reason.TheVariants.{Granularity, DateGranularity};
ghost use Rattle.pbf_wire.specs.Faults.{found_in, in_last, missing, twice};
ghost use Rattle.pbf_wire.specs.Fields.{occurrence};
ghost use Rattle.pbf_wire.specs.Least.{least};
ghost use Rattle.pbf_block.specs.Clean.{IsCleanBlock, part_faults};
ghost use Rattle.pbf_block.specs.Group.{member_weights, in_group};
ghost use Rattle.pbf_block.specs.PrimitiveBlock.{positive, streaming, part_wire, wire_faults, part_structure, structure_faults, value_faults};
ghost use Rattle.pbf_wire.specs.declared.limits.TheConstants.{SUM_LIMIT};

use crate::group::{self, GROUP_KINDS, GroupFieldForm, GroupFieldValues, GroupFieldWeights};
use crate::ranges::judge_positive;
use osm_entity::Scale;
use pbf_strings::{TABLE_KINDS, Table};
use pbf_wire::{
    EachField, Fault, Field, InField, Judge, Kind, Message, Reason, judge_fields, judge_form,
    judge_leaf, judge_missing, judge_twice, last_value_left, lesser,
};

pub(crate) const STRINGTABLE: u64 = 1;

pub(crate) const PRIMITIVEGROUP: u64 = 2;

pub(crate) const GRANULARITY: u64 = 17;

pub(crate) const DATE_GRANULARITY: u64 = 18;

pub(crate) const LAT_OFFSET: u64 = 19;

pub(crate) const LON_OFFSET: u64 = 20;

/// How the fields of a PrimitiveBlock are stored.
pub(crate) const BLOCK_KINDS: [(u64, Kind); 6] = [
    (STRINGTABLE, Kind::Bytes),
    (PRIMITIVEGROUP, Kind::Bytes),
    (GRANULARITY, Kind::Number),
    (DATE_GRANULARITY, Kind::Number),
    (LAT_OFFSET, Kind::Number),
    (LON_OFFSET, Kind::Number),
];

/// The wire form of the table or the group that a field of a block holds.
#[derive(Clone, Copy)]
struct PartForm;

impl Judge for PartForm {
    ghost faults = { λ _. part_wire };

    fn judge(&self, field: Field<'_>) -> Option<Fault> {
        let message = field.message()?;
        match field.number {
            STRINGTABLE => judge_leaf(message, &TABLE_KINDS),
            PRIMITIVEGROUP => judge_form(message, &GROUP_KINDS, &GroupFieldForm),
            _ => None,
        }
    }
}

/// The least wire fault of a block, and of the messages in it.
#[tactic(auto, unfolding(crate::specs::PrimitiveBlock::wire_faults))]
pub(crate) fn judge_block_wire(payload: Message<'_>) -> Option<Fault>
    ensures { result ≡ least (wire_faults payload.entry.at payload.entry.bytes.now) }
{
    judge_form(payload, &BLOCK_KINDS, &PartForm)
}

/// The structure of the table or the group that a field of a block holds.
#[derive(Clone, Copy)]
struct PartStructure;

impl Judge for PartStructure {
    ghost faults = { λ _. part_structure };

    fn judge(&self, field: Field<'_>) -> Option<Fault> {
        let message = field.message()?;
        match field.number {
            STRINGTABLE => Table::judge_count(message.bytes, field.offset).err(),
            PRIMITIVEGROUP => group::judge_group_structure(message),
            _ => None,
        }
    }
}

/// The least fault of a block's own structure: it has no string table, or more than one.
#[tactic(auto, using(crate::proofs::Parts::lesser_parts))]
fn judge_table(payload: Message<'_>) -> Option<Fault>
    ensures { result ≡ least (missing STRINGTABLE payload.entry.at (found_in payload.entry)
        ++ twice STRINGTABLE (found_in payload.entry)) }
{
    lesser(
        judge_missing(payload, payload.at, STRINGTABLE),
        judge_twice(payload, STRINGTABLE),
    )
}

/// The least fault of structure of a block, and of the messages in it.
#[tactic(auto, using(crate::proofs::Parts::lesser_parts), unfolding(crate::specs::PrimitiveBlock::structure_faults))]
pub(crate) fn judge_block_structure(payload: Message<'_>) -> Option<Fault>
    ensures { result ≡ least (structure_faults payload.entry.at payload.entry.bytes.now) }
{
    lesser(judge_table(payload), judge_fields(payload, &PartStructure))
}

/// The least fault of a block's own values, those of its scale.
#[tactic(auto, using(crate::proofs::Parts::lesser_parts))]
fn judge_scale(payload: Message<'_>) -> Option<Fault>
    ensures { result ≡ least (in_last GRANULARITY (positive Granularity) (found_in payload.entry)
        ++ in_last DATE_GRANULARITY (positive DateGranularity) (found_in payload.entry)) }
{
    let fields = payload.fields();
    lesser(
        judge_positive(last_value_left(fields, GRANULARITY), Reason::Granularity),
        judge_positive(
            last_value_left(fields, DATE_GRANULARITY),
            Reason::DateGranularity,
        ),
    )
}

/// The least fault of values of a block, and of the messages in it; its table has `limit` texts.
#[tactic(auto, using(crate::proofs::Parts::lesser_parts), unfolding(crate::specs::PrimitiveBlock::value_faults))]
pub(crate) fn judge_block_values(payload: Message<'_>, limit: u64) -> Option<Fault>
    requires { limit ≤ SUM_LIMIT }
    ensures { result ≡ least (value_faults limit payload.entry.at payload.entry.bytes.now) }
{
    let members = InField(PRIMITIVEGROUP, EachField(GroupFieldValues { limit }));
    lesser(judge_scale(payload), judge_fields(payload, &members))
}

/// What the phases before the weights find in the table or the group that a field of a block holds, whose table has `limit` texts.
#[derive(Clone, Copy)]
struct PartFaults {
    limit: u64,
    ghost limited: { limit ≤ SUM_LIMIT },
}

impl Judge for PartFaults {
    ghost faults = { λ part. part_faults part.limit };

    #[tactic(auto, using(crate::proofs::Parts::lesser_parts))]
    fn judge(&self, field: Field<'_>) -> Option<Fault> {
        if has_clean_group(field, self.limit) {
            return None;
        }
        let limit = self.limit;
        let values = InField(PRIMITIVEGROUP, EachField(GroupFieldValues { limit }));
        let early = lesser(PartForm.judge(field), PartStructure.judge(field));
        lesser(early, values.judge(field))
    }
}

/// Whether a field of a block is a group of ways in which the phases before the weights find no fault.
fn has_clean_group(field: Field<'_>, limit: u64) -> bool
    ensures { IsTrue result → part_faults limit (occurrence field.entry) ≡ [] }
{
    if field.number != PRIMITIVEGROUP {
        return false;
    }
    let Some(message) = field.message() else {
        return false;
    };
    group::has_clean_ways(message, limit)
}

/// Whether the phases before the weights find no fault in a block whose table has `limit` texts, nor in the messages in it. Each
/// message is gone through once for all of them, as far as it holds ways. `false` says nothing.
pub(crate) fn is_clean_block(payload: Message<'_>, limit: u64) -> bool
    requires { limit ≤ SUM_LIMIT }
    ensures { IsTrue result → IsCleanBlock limit payload.entry.at payload.entry.bytes.now }
{
    if judge_table(payload).is_some() || judge_scale(payload).is_some() {
        return false;
    }
    judge_form(payload, &BLOCK_KINDS, &PartFaults { limit }).is_none()
}

/// The least weight fault of a payload: `EntityLarge` at the first field of a group with an entity above [`HIGHEST_WEIGHT`]. Goes
/// through those entities that may be too heavy by the length of their message. Does not allocate.
pub(crate) fn judge_weights<'a>(
    payload: Message<'a>,
    table: &'a Table<'a>,
    scale: Scale,
) -> Option<Fault>
    ensures { result ≡ least
        (flat_map (in_group (member_weights streaming table.now scale)) (found_in payload.entry)) }
{
    let members = GroupFieldWeights {
        table,
        scale,
        longest: table.longest() as u64,
    };
    judge_fields(payload, &InField(PRIMITIVEGROUP, EachField(members)))
}
