//! A caller of `pbf_dense`.

ghost use Rattle.std.specs.Prelude.{◌≡◌, ◌+◌, ◌≤◌, IfOk, length, slice_get};
ghost use Rattle.std.specs.Option.{option_map};
ghost use Rattle.pbf_dense.specs.Nodes.{nodes};
ghost use Rattle.pbf_wire.specs.Faults.{fields_in};
ghost use Rattle.pbf_wire.specs.declared.limits.TheConstants.{OFFSET_LIMIT};

use osm_entity::Scale;
use pbf_dense::Dense;
use pbf_strings::Table;
use pbf_wire::Fault;

/// The id of the first node.
pub fn first_id(
    message: &[u8],
    at: u64,
    place: u64,
    table: &Table<'_>,
    scale: Scale,
) -> Result<Option<i64>, Fault>
    requires placed { at + length message.now ≤ OFFSET_LIMIT }
    requires tagged { place ≤ at }
    ensures { IfOk result (λ id. id ≡ option_map (λ n. n.id)
        (slice_get (nodes table.now scale (fields_in at message.now)) 0)) }
{
    let mut dense = Dense::read(message, at, place, table, scale)?;
    match dense.next() {
        Some(node) => Ok(Some(node.id())),
        None => Ok(None),
    }
}
