//! A PrimitiveBlock, written from its parts.

ghost use Rattle.std.specs.Prelude.{◌≡◌, ◌++◌, ◌<◌, ◌^◌, ℕ, List, OnOk};
ghost use Rattle.pbf_wire.specs.Message.{Scalar, Each, slot_bytes, message, unless_empty};
ghost use Rattle.pbf_strings.specs.TableOut.{table_message};
ghost use Rattle.pbf_block.specs.WrittenBlock.{unless_default, block_slots};

use crate::group::DENSE;
use crate::primitive_block::{
    DATE_GRANULARITY, GRANULARITY, LAT_OFFSET, LON_OFFSET, PRIMITIVEGROUP, STRINGTABLE,
};
use crate::scale::DEFAULT_SCALE;
use osm_entity::Scale;
use pbf_wire::{put_bytes, put_int64, put_unless_empty};
use std::alloc::AllocError;

/// The most entities that a block has. Together they weigh no more than one entity may.
pub const MOST_ENTITIES: usize = 8_000;

/// Appends a number, if it is not the default.
fn put_unless_default(
    out: &mut Vec<u8>,
    number: u64,
    default: i64,
    value: i64,
) -> Result<(), AllocError>
    requires { number < 2 ^ 29 }
    ensures { OnOk result (out.new.items
        ≡ out.old.items ++ slot_bytes (Scalar number (unless_default default value))) }
{
    put_int64(out, number, (value != default).then_some(value))
}

/// Appends the message of dense nodes to a group, if there are nodes in it. After an `Err` the group is unspecified.
pub fn put_dense(group: &mut Vec<u8>, dense: &[u8]) -> Result<(), AllocError>
    ensures { OnOk result
        (group.new.items ≡ group.old.items ++ slot_bytes (Each DENSE (unless_empty dense.now))) }
{
    put_unless_empty(group, DENSE, dense)
}

/// Appends a PrimitiveBlock: the message of its string table, one group with these bytes, and those numbers of the scale that
/// are not the defaults. After an `Err` the output is unspecified.
pub fn put_block(
    out: &mut Vec<u8>,
    table: &[u8],
    group: &[u8],
    scale: Scale,
) -> Result<(), AllocError>
    ensures { (texts : List (List ℕ)) → table.now ≡ table_message texts
        → OnOk result (out.new.items
        ≡ out.old.items ++ message (block_slots scale texts group.now)) }
{
    put_bytes(out, STRINGTABLE, table)?;
    put_bytes(out, PRIMITIVEGROUP, group)?;
    put_unless_default(
        out,
        GRANULARITY,
        i64::from(DEFAULT_SCALE.granularity),
        i64::from(scale.granularity),
    )?;
    put_unless_default(
        out,
        DATE_GRANULARITY,
        i64::from(DEFAULT_SCALE.date_granularity),
        i64::from(scale.date_granularity),
    )?;
    put_unless_default(out, LAT_OFFSET, DEFAULT_SCALE.lat_offset, scale.lat_offset)?;
    put_unless_default(out, LON_OFFSET, DEFAULT_SCALE.lon_offset, scale.lon_offset)?;
    Ok(())
}
