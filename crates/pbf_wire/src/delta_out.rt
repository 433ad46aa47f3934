//! A column of differences that is being written.

ghost use Rattle.std.specs.Prelude.{◌≡◌, ◌≤◌, ◌-◌, ◌∷◌, ◌++◌, [], pos, length, take, drop, IfOk, OnOk, OnErr};
ghost use Rattle.std.specs.List.{AllByRecursion};
ghost use Rattle.pbf_wire.specs.Columns.{packed};
ghost use Rattle.pbf_wire.specs.Cursors.{sums_left};
ghost use Rattle.pbf_wire.specs.Signed.{IsWithin};
ghost use Rattle.pbf_wire.specs.Sums.{deltas};
ghost use Rattle.pbf_wire.specs.declared.limits.TheConstants.{SUM_LIMIT};

use crate::signed::zigzag;
use crate::spelled::are_needed;
use crate::sums::Sums;
use crate::varint::put_varint;
use std::alloc::{AllocError, Global};
use std::marker::Model;

/// How many values are still to be taken, and how many of them one by one, before a run is tried again.
#[derive(Clone, Copy)]
struct NextRun {
    left: usize,
    apart: usize,
}

/// A packed column of deltas (`sint64`), encoded as it is pushed to: it holds bytes and the last value. Contracts see it as
/// the list of its values.
#[derive(Drop)]
pub struct DeltaOut {
    bytes: Vec<u8>,
    last: i64,
}

impl Model for DeltaOut {
    ghost use Rattle.std.specs.Prelude.{ℤ, List};
    ghost use Rattle.pbf_wire.specs.Packed.{values_of, HoldsDeltas};

    ghost Value = { List ℤ };

    ghost view = { λ d. values_of d.bytes.items };

    ghost invariant = { λ d. HoldsDeltas d.bytes.items d.last (values_of d.bytes.items) };
}

impl DeltaOut {
    /// A column without values, which allocates nothing yet.
    #[tactic(auto, unfolding(crate::specs::Columns::entries_past))]
    pub fn new(alloc: Global) -> Self
        ensures { result ≡ [] }
    {
        DeltaOut {
            bytes: Vec::new(alloc),
            last: 0,
        }
    }

    /// Removes all values and keeps the room.
    #[tactic(auto, unfolding(crate::specs::Columns::entries_past))]
    pub fn clear(&mut self)
        ensures { self.new ≡ [] }
    {
        self.bytes.clear();
        self.last = 0;
    }

    /// Adds a value at the end: its difference to the value before, of the first to 0. An `Err` leaves the column as it was.
    #[tactic(auto, using(crate::proofs::PackedLemmas::held_last, crate::proofs::PackedLemmas::appended, crate::proofs::PackedLemmas::same_value, crate::proofs::PackedLemmas::pushed_deltas, crate::proofs::PackedLemmas::pushed_values))]
    pub fn push(&mut self, value: i64) -> Result<(), AllocError>
        requires { IsWithin (pos SUM_LIMIT) value }
        ensures ok { OnOk result (self.new ≡ self.old ++ value ∷ []) }
        ensures err { OnErr result (self.new ≡ self.old) }
    {
        put_varint(&mut self.bytes, zigzag(value - self.last))?;
        self.last = value;
        Ok(())
    }

    /// Adds the next values of another column, at most so many, as far as they are read quickly, if they are spelled as they are to be
    /// written: their bytes are copied. The values are taken from it. The last value must be the same in both, or none is taken.
    fn take_spelled(&mut self, values: &mut Sums<'_>, count: usize) -> Result<NextRun, AllocError>
        requires { AllByRecursion (IsWithin (pos SUM_LIMIT)) (sums_left values.old) }
        ensures few { IfOk result (λ run. run.left ≤ count) }
        ensures taken { IfOk result
            (λ run. self.new ≡ self.old ++ take (count - run.left) (sums_left values.old)) }
        ensures rest { IfOk result
            (λ run. sums_left values.new ≡ drop (count - run.left) (sums_left values.old)) }
    {
        if self.last != values.total {
            return Ok(NextRun {
                left: count,
                apart: 1,
            });
        }
        let mut rest = *values;
        let left = rest.pass_quick(count);
        let bytes = values.entries.bytes_until(&rest.entries);
        if !are_needed(bytes) {
            return Ok(NextRun {
                left: count,
                apart: count - left,
            });
        }
        self.bytes.extend_from_slice(bytes)?;
        self.last = rest.total;
        *values = rest;
        Ok(NextRun { left, apart: 1 })
    }

    /// Adds the next values of another column, at most so many, which are taken from it. Where its entries are spelled as they are
    /// to be written their bytes are copied. After an `Err` both are unspecified.
    pub fn take(&mut self, values: &mut Sums<'_>, count: usize) -> Result<(), AllocError>
        requires { AllByRecursion (IsWithin (pos SUM_LIMIT)) (sums_left values.old) }
        ensures taken { OnOk result (self.new ≡ self.old ++ take count (sums_left values.old)) }
        ensures rest { OnOk result (sums_left values.new ≡ drop count (sums_left values.old)) }
    {
        let mut run = NextRun {
            left: count,
            apart: 1,
        };
        'values: while run.left > 0 {
            let Some(value) = values.next() else {
                break;
            };
            self.push(value)?;
            run.left -= 1;
            run.apart = run.apart.saturating_sub(1);
            if run.apart == 0 {
                run = self.take_spelled(values, run.left)?;
            }
        }
        Ok(())
    }

    /// The packed column: of each value the shortest spelling of the zigzag of its difference to the one before.
    pub fn bytes(&self) -> &[u8]
        ensures { result.now ≡ packed (deltas self.now) }
    {
        &self.bytes
    }

    /// The length of those bytes.
    pub fn held(&self) -> u64
        ensures { result ≡ length (packed (deltas self.now)) }
    {
        self.bytes.len() as u64
    }
}
