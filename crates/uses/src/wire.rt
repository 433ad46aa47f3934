//! A caller of `pbf_wire`.

ghost use Rattle.std.specs.Prelude.{◌+◌, ◌≤◌, length};
ghost use Rattle.pbf_wire.specs.declared.limits.TheConstants.{OFFSET_LIMIT};

use pbf_wire::{Column, Fault, Kind, judge_wire};

/// The first number of field 8, if the message has no wire fault.
pub fn first_ref(message: &[u8], at: u64) -> Result<Option<u64>, Fault>
    requires { at + length message.now ≤ OFFSET_LIMIT }
{
    judge_wire(message, at, &[(8, Kind::Column)])?;
    Ok(Column::new(message, at, 8).next())
}
