//! A caller of `pbf_block`.

ghost use Rattle.std.specs.Prelude.{◌≡◌, ◌+◌, ◌<◌, ◌≤◌, None, OnOk, length};
ghost use Rattle.pbf_block.specs.PrimitiveBlock.{block_fault};
ghost use Rattle.pbf_wire.specs.declared.limits.TheConstants.{OFFSET_LIMIT, RAW_LIMIT};

use pbf_block::Block;
use pbf_wire::ReadFault;
use std::alloc::Global;

/// The id of the first entity.
pub fn first_id(alloc: Global, payload: &[u8], at: u64) -> Result<Option<i64>, ReadFault>
    requires placed { at + length payload.now ≤ OFFSET_LIMIT }
    requires short { length payload.now < RAW_LIMIT }
    ensures sound { OnOk result (block_fault at payload.now ≡ None) }
{
    let block = Block::read(alloc, payload, at)?;
    let mut entities = block.entities();
    match entities.next() {
        Some(entity) => Ok(Some(entity.id())),
        None => Ok(None),
    }
}
