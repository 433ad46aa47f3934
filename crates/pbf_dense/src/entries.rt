//! The next entry of a column.

ghost use Rattle.std.specs.Prelude.{◌≡◌, drop, slice_get};
ghost use Rattle.std.specs.Iterator.{YieldsFirst};
ghost use Rattle.pbf_wire.specs.Cursors.{column_left, numbers_left, sums_left};

use pbf_wire::{Column, Sums};

/// The next number of a column.
pub(crate) fn next_number(numbers: &mut Column<'_>) -> Option<u64>
    ensures steps { YieldsFirst numbers_left numbers.old result numbers.new }
    ensures first { result ≡ slice_get (numbers_left numbers.old) 0 }
    ensures rest { numbers_left numbers.new ≡ drop 1 (numbers_left numbers.old) }
{
    numbers.next()
}

/// The next value of a column of differences, of which many are the same as the one before. It is inlined, so that the
/// cursor of a loop stays in registers.
#[inline(always)]
pub(crate) fn next_sum(sums: &mut Sums<'_>) -> Option<i64>
    ensures first { result ≡ slice_get (sums_left sums.old) 0 }
    ensures rest { sums_left sums.new ≡ drop 1 (sums_left sums.old) }
{
    sums.next_steady()
}

/// Skips as many numbers of a column. They are read from a copy, which stays in registers.
#[tactic(auto, using(crate::proofs::MovingLemmas::passed_one, crate::proofs::MovingLemmas::all_passed))]
pub(crate) fn pass_numbers(numbers: &mut Column<'_>, count: usize)
    ensures { numbers_left numbers.new ≡ drop count (numbers_left numbers.old) }
{
    let mut rest = *numbers;
    for _passed in 0..count {
        let Some(_) = next_number(&mut rest) else {
            break;
        };
    }
    *numbers = rest;
}

/// The next number of a column, and the place of the occurrence that holds it.
pub(crate) fn next_placed(column: &mut Column<'_>) -> Option<(u64, u64)>
    ensures { YieldsFirst column_left column.old result column.new }
{
    let number = column.next()?;
    Some((number, column.place()))
}
