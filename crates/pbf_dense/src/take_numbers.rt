//! Numbers of metadata that are taken over from a dense message to one that is being written.

ghost use Rattle.std.specs.Prelude.{◌≡◌, ◌++◌, ◌<◌, ◌≤◌, ◌-◌, OnOk, IfOk, map, take, drop};
ghost use Rattle.pbf_wire.specs.Cursors.{numbers_left};
ghost use Rattle.pbf_dense.specs.InfoTaken.{written_version, written_flag, TakesNumbers};

use crate::entries::next_number;
use pbf_wire::{Column, ColumnOut, low_i32, sign_extended};
use std::alloc::AllocError;

/// Takes the next version over, if of `count` one is left, and returns how many are left then: none if the column has ended.
fn take_version(
    column: &mut ColumnOut,
    versions: &mut Column<'_>,
    count: usize,
) -> Result<usize, AllocError>
    ensures taken { IfOk result (λ left. TakesNumbers written_version column.old column.new
        (numbers_left versions.old) (numbers_left versions.new) count left) }
    ensures fewer { IfOk result (λ left. left ≤ count - 1) }
{
    if count == 0 {
        return Ok(0);
    }
    let Some(number) = next_number(versions) else {
        return Ok(0);
    };
    column.push(sign_extended(i64::from(low_i32(number))))?;
    Ok(count - 1)
}

/// Takes as many versions over. Those of one byte, as most are, are copied as they are.
pub(crate) fn take_versions(
    column: &mut ColumnOut,
    versions: &mut Column<'_>,
    count: usize,
) -> Result<(), AllocError>
    ensures added { OnOk result (column.new
        ≡ column.old ++ map written_version (take count (numbers_left versions.old))) }
    ensures rest { OnOk result
        (numbers_left versions.new ≡ drop count (numbers_left versions.old)) }
{
    let mut left = count;
    'versions: while left > 0 {
        left -= column.take_short(versions, left)?;
        left = take_version(column, versions, left)?;
    }
    Ok(())
}

/// Takes the next flag over, if of `count` one is left, and returns how many are left then: none if the column has ended.
fn take_flag(
    column: &mut ColumnOut,
    flags: &mut Column<'_>,
    count: usize,
) -> Result<usize, AllocError>
    requires { 0 < count }
    ensures taken { IfOk result (λ left. TakesNumbers written_flag column.old column.new
        (numbers_left flags.old) (numbers_left flags.new) count left) }
    ensures fewer { IfOk result (λ left. left < count) }
{
    let Some(number) = next_number(flags) else {
        return Ok(0);
    };
    column.push(u64::from(number != 0))?;
    Ok(count - 1)
}

/// Takes as many flags over.
pub(crate) fn take_flags(
    column: &mut ColumnOut,
    flags: &mut Column<'_>,
    count: usize,
) -> Result<(), AllocError>
    ensures added { OnOk result (column.new
        ≡ column.old ++ map written_flag (take count (numbers_left flags.old))) }
    ensures rest { OnOk result (numbers_left flags.new ≡ drop count (numbers_left flags.old)) }
{
    let mut left = count;
    'flags: while left > 0 {
        left = take_flag(column, flags, left)?;
    }
    Ok(())
}
