//! The values of columns: numbers that are out of range, or no index of a table.
//!
//! A message of which these calls read one field may have a wire fault; its fields before the fault count.

ghost use Rattle.std.specs.Prelude.{◌≡◌, ◌+◌, ◌+ℤ◌, ◌≤◌, pos, false, [], IsTrue};
ghost use Rattle.std.specs.List.{flat_map};
ghost use Rattle.pbf_wire.specs.declared.fault.Reason.TheVariants.{StringIndex};
ghost use Rattle.pbf_wire.specs.Occurrence.{found};
ghost use Rattle.pbf_wire.specs.Cursors.{fields_left};
ghost use Rattle.pbf_wire.specs.Columns.{joined};
ghost use Rattle.pbf_wire.specs.Least.{least};
ghost use Rattle.pbf_wire.specs.Signed.{delta_in};
ghost use Rattle.pbf_wire.specs.Faults.{found_in, below_fault, range_fault, is_allowed, faults_of_sums, sum_faults, index_sum_faults};
ghost use Rattle.pbf_wire.specs.declared.limits.TheConstants.{SUM_LIMIT};

use crate::column::Column;
use crate::fault::{Fault, Reason};
use crate::fields::Fields;
use crate::judge::fault_where;
use crate::least::lesser;
use crate::limits::{STORED_LIMIT, SUM_LIMIT};
use crate::message::Message;
use crate::short::{MOST_BYTES, count_left_if_small};
use crate::signed::{delta_in, low_u32};
use crate::sum::Sum;

/// The fault at `place`, if the low 32 bits of the number aren't below `limit`.
fn judge_low(place: u64, number: u64, limit: u64, reason: Reason) -> Option<Fault>
    ensures { result ≡ least (below_fault reason limit (number, place)) }
{
    fault_where(u64::from(low_u32(number)) >= limit, place, reason)
}

/// The least fault of the numbers of a column of which the low 32 bits aren't below `limit`.
#[tactic(auto, using(crate::proofs::LeastLemmas::least_more, crate::proofs::LeastLemmas::lesser_nothing))]
pub fn judge_low_numbers(
    message: Message<'_>,
    number: u64,
    limit: u64,
    reason: Reason,
) -> Option<Fault>
    ensures { result
        ≡ least (flat_map (below_fault reason limit) (joined number (found_in message.entry))) }
{
    let mut column = message.column(number);
    let mut least = None;
    while let Some(value) = column.next() {
        least = lesser(least, judge_low(column.place(), value, limit, reason));
    }
    least
}

/// `StringIndex` at `place`, if the low 32 bits of the number aren't below `limit`, the length of a table.
pub fn judge_index(place: u64, number: u64, limit: u64) -> Option<Fault>
    ensures { result ≡ least (below_fault StringIndex limit (number, place)) }
{
    judge_low(place, number, limit, Reason::StringIndex)
}

/// `OutOfRange` at `place`, if the number isn't strictly between `-limit` and `limit`.
pub fn judge_range(place: u64, number: i64, limit: u64) -> Option<Fault>
    ensures { result ≡ least (range_fault (pos limit) place number) }
{
    fault_where(number.unsigned_abs() >= limit, place, Reason::OutOfRange)
}

/// Whether a column in the fields that are still to come has so small numbers that each sum of entries of 64 bits is strictly
/// between -2^62 and 2^62. No sum is made.
#[tactic(auto, using(crate::proofs::ShortLemmas::small_sums))]
fn has_small_sums(fields: Fields<'_>, number: u64) -> bool
    ensures { IsTrue result → sum_faults (pos SUM_LIMIT) false
        (joined number (found (fields_left fields.entry))) ≡ [] }
{
    fields.len() <= MOST_BYTES && count_left_if_small(fields, number).is_some()
}

/// Adds the entry that a number of a column means to the sum of those before it, and returns whether that is a good value: strictly
/// between `-limit` and `limit` and, if it is not `signed`, not below 0.
fn add_entry(sum: &mut Sum, narrow: bool, number: u64, limit: u64, signed: bool) -> bool
    requires { (limit ≤ SUM_LIMIT) × (sum.old.limit ≡ pos SUM_LIMIT) }
    ensures good { result ≡ is_allowed signed limit (sum.old.total +ℤ delta_in narrow number) }
    ensures total { IsTrue result → sum.new.total ≡ sum.old.total +ℤ delta_in narrow number }
    ensures limit { sum.new.limit ≡ sum.old.limit }
{
    match sum.add(delta_in(narrow, number)) {
        Some(value) => value.unsigned_abs() < limit && (signed || value >= 0),
        None => false,
    }
}

/// The least fault of the values of a column of differences in the fields that are still to come: the reason, if one is not
/// strictly between `-limit` and `limit` or, if they are not `signed`, below 0. Of `narrow` columns the low 32 bits of each entry
/// count. Reads up to the first such value.
#[tactic(auto, using(crate::proofs::RisingLemmas::running_is, crate::proofs::RisingLemmas::left_rises))]
fn judge_each_value(
    fields: Fields<'_>,
    number: u64,
    limit: u64,
    narrow: bool,
    signed: bool,
    reason: Reason,
) -> Option<Fault>
    requires { limit ≤ SUM_LIMIT }
    ensures { result ≡ least (faults_of_sums (is_allowed signed limit) reason narrow
        (joined number (found (fields_left fields.entry)))) }
{
    let mut column = Column::over(fields, number);
    let mut sum = Sum::new(STORED_LIMIT);
    while let Some(entry) = column.next() {
        if !add_entry(&mut sum, narrow, entry, limit, signed) {
            return Some(Fault {
                offset: column.place(),
                reason,
            });
        }
        'zeros: while column.pass_zero() {}
    }
    None
}

/// Like [`judge_sums_left`], if there are fields.
fn judge_sums_of(fields: Fields<'_>, number: u64, limit: u64, narrow: bool) -> Option<Fault>
    requires { (1 ≤ limit) × (limit ≤ SUM_LIMIT) }
    ensures { result
        ≡ least (sum_faults (pos limit) narrow (joined number (found (fields_left fields.entry)))) }
{
    if limit == SUM_LIMIT && !narrow && has_small_sums(fields, number) {
        return None;
    }
    judge_each_value(fields, number, limit, narrow, true, Reason::OutOfRange)
}

/// The least fault of the values of a column of differences in the fields that are still to come: `OutOfRange` if one isn't
/// strictly between `-limit` and `limit`. Of `narrow` columns the low 32 bits of each entry count. Reads up to the first such
/// value.
pub fn judge_sums_left(fields: Fields<'_>, number: u64, limit: u64, narrow: bool) -> Option<Fault>
    requires { (1 ≤ limit) × (limit ≤ SUM_LIMIT) }
    ensures { result
        ≡ least (sum_faults (pos limit) narrow (joined number (found (fields_left fields.entry)))) }
{
    // Most ways have no locations.
    if fields.is_done() {
        return None;
    }
    judge_sums_of(fields, number, limit, narrow)
}

/// Like [`judge_sums_left`], of all of a message.
pub fn judge_sums(message: Message<'_>, number: u64, limit: u64, narrow: bool) -> Option<Fault>
    requires { (1 ≤ limit) × (limit ≤ SUM_LIMIT) }
    ensures { result
        ≡ least (sum_faults (pos limit) narrow (joined number (found_in message.entry))) }
{
    judge_sums_left(message.fields(), number, limit, narrow)
}

/// The least fault of the values of a narrow column of differences that are indexes: `StringIndex` if one is below 0 or
/// not below `limit`, the length of a table. Reads up to the first such value.
pub fn judge_index_sums(message: Message<'_>, number: u64, limit: u64) -> Option<Fault>
    requires { limit ≤ SUM_LIMIT }
    ensures { result ≡ least (index_sum_faults limit (joined number (found_in message.entry))) }
{
    let fields = message.fields();
    judge_each_value(fields, number, limit, true, false, Reason::StringIndex)
}
