//! The values of a delta column. A quick one is read without a call, so that the cursor of a loop stays in registers.

ghost use Rattle.std.specs.Prelude.{◌≡◌, ◌≤ℤ◌, pos};
ghost use Rattle.pbf_wire.specs.Signed.{IsWithin};
ghost use Rattle.pbf_wire.specs.declared.limits.TheConstants.{SUM_LIMIT};

use crate::column::Column;
use crate::fields::Fields;
use crate::limits::STORED_LIMIT;
use crate::signed::{delta_in, unzigzag};
use crate::span::{Span, WHOLE_SPAN};
use crate::sum::added;

/// Few small entries, added to a number nearer to 0, stay within the limit of stored numbers.
const NEAR: u64 = 1 << 61;

/// Entries of at most five bytes are nearer to 0.
const REACH: i64 = 1 << 35;

/// Entries of at most three bytes are nearer to 0.
const NARROW_REACH: i64 = 1 << 21;

/// A cursor over the values of a delta column: the running sums of its entries, up to the first that isn't strictly between
/// `-limit` and `limit`. It does not allocate, and a copy of it continues by itself.
#[derive(Clone, Copy)]
pub struct Sums<'a> {
    pub(crate) entries: Column<'a>,
    /// The last value given, 0 before the first.
    pub(crate) total: i64,
    pub(crate) limit: i64,
    /// Whether the entries are `sint32`, of which the low 32 bits count.
    pub(crate) narrow: bool,
    ghost positive: { pos 1 ≤ℤ limit },
    ghost within: { IsWithin limit total },
}

impl<'a> Sums<'a> {
    ghost use Rattle.std.specs.Prelude.{◌+◌, ◌-◌, ◌≤◌, ◌+ℤ◌, ◌∷◌, ◌++◌, List, ℕ, ℤ, ⊤, true, false, IsTrue, MatchOption, drop, length, map, replicate};
    ghost use Rattle.std.specs.Iterator.{YieldsFirst};
    ghost use Rattle.std.specs.List.{AllByRecursion};
    ghost use Rattle.pbf_wire.specs.Signed.{unzigzag, low_sint32, IsNear};
    ghost use Rattle.pbf_wire.specs.Sums.{sums_within};
    ghost use Rattle.pbf_wire.specs.Cursors.{numbers_left, sums_left, last_given};
    ghost use Rattle.pbf_wire.specs.Passing.{PassesSome};
    ghost use Rattle.pbf_wire.specs.Spans.{ArePassed};
    ghost use Rattle.pbf_wire.specs.Taking.{PassesSpelled, left_of};

    /// The values of a column of `sint64`.
    pub fn new(entries: Column<'a>, limit: i64) -> Self
        requires { pos 1 ≤ℤ limit }
        ensures { sums_left result
            ≡ sums_within limit (pos 0) (map unzigzag (numbers_left entries.entry)) }
    {
        Sums {
            entries,
            total: 0,
            limit,
            narrow: false,
        }
    }

    /// The values of a column of `sint32`.
    pub fn narrow(entries: Column<'a>, limit: i64) -> Self
        requires { pos 1 ≤ℤ limit }
        ensures { sums_left result
            ≡ sums_within limit (pos 0) (map low_sint32 (numbers_left entries.entry)) }
    {
        Sums {
            entries,
            total: 0,
            limit,
            narrow: true,
        }
    }

    /// Whether the sum stays within its limit by one more entry, of at most five bytes, or three if it is narrow.
    pub(crate) fn is_near(&self, narrow: bool) -> bool
        ensures { IsTrue result → (number : ℕ) → IsNear narrow number
            → IsWithin self.now.limit (self.now.total +ℤ unzigzag number) }
    {
        let Sums { total, limit, .. } = *self;
        let reach = if narrow { NARROW_REACH } else { REACH };
        total.abs() < limit - reach
    }

    /// Adds the entry of a number to the sum, which stays within its limit.
    pub(crate) fn add_near(&mut self, number: u64)
        requires { IsWithin self.old.limit (self.old.total +ℤ unzigzag number) }
        ensures total { self.new.total ≡ self.old.total +ℤ unzigzag number }
        ensures entries { self.new.entries ≡ self.old.entries }
        ensures same { (self.new.limit ≡ self.old.limit) × (self.new.narrow ≡ self.old.narrow) }
    {
        // A proof knows the range of a field that was read.
        let _limit = self.limit;
        self.total += unzigzag(number);
    }

    /// The next value, if its entry takes at most five bytes of the packed occurrence that was begun, or three if it is narrow, and the sum
    /// is near. Nearly all values of a file are read so.
    #[inline(always)]
    fn next_near(&mut self, narrow: bool) -> Option<i64>
        requires { IsTrue self.old.narrow → IsTrue narrow }
        ensures { MatchOption result (sums_left self.new ≡ sums_left self.old)
            (λ value. sums_left self.old ≡ value ∷ sums_left self.new) }
    {
        if !self.is_near(narrow) {
            return None;
        }
        let Some(number) = self.entries.next_near(narrow) else {
            return None;
        };
        self.add_near(number);
        Some(self.total)
    }

    /// The next value, whatever its entry takes.
    #[tactic(auto, unfolding(crate::specs::Occurrence::items_past))]
    fn next_any(&mut self) -> Option<i64>
        ensures { YieldsFirst sums_left self.old result self.new }
    {
        if let Some(value) = self.next_near(self.narrow) {
            return Some(value);
        }
        let number = self.entries.next()?;
        let Some(total) = added(self.total, delta_in(self.narrow, number), self.limit) else {
            self.entries = Column::over(Fields::new(&[], 0), 0);
            return None;
        };
        self.total = total;
        Some(total)
    }

    /// Skips the next value, if its entry takes at most five bytes of the packed occurrence that was begun, or three if it is narrow, and
    /// the sum is near.
    #[tactic(auto, using(crate::proofs::TakingLemmas::entry_taken))]
    fn pass_one(&mut self) -> bool
        ensures passed { IsTrue result → PassesSpelled (left_of self.old) (left_of self.new) 1 }
        ensures kept { result ≡ false → left_of self.new ≡ left_of self.old }
    {
        if !self.is_near(self.narrow) {
            return false;
        }
        let Some(number) = self.entries.next_near(self.narrow) else {
            return false;
        };
        self.add_near(number);
        true
    }

    /// The last value given, 0 before the first.
    pub fn last_value(&self) -> i64
        ensures { result ≡ last_given self.now }
    {
        let Sums { total, .. } = *self;
        total
    }

    /// Skips the next values, at most so many, as long as each is the last one again by a 0 of one byte, and returns how many. It reads
    /// sixteen bytes of the packed occurrence that was begun; if there are fewer, it skips none.
    #[tactic(auto, using(crate::proofs::NextLemmas::values, crate::proofs::NextLemmas::repeated, crate::proofs::TakingLemmas::zeros_taken))]
    pub fn pass_same(&mut self, most: usize) -> usize
        ensures same { sums_left self.old
            ≡ replicate result (last_given self.old) ++ sums_left self.new }
        ensures last { last_given self.new ≡ last_given self.old }
        ensures passed { PassesSpelled (left_of self.old) (left_of self.new) result }
        ensures few { result ≤ most }
    {
        self.entries.pass_zeros(most)
    }

    /// Skips the next sixteen values, if they rise by entries of one byte and a span has them all. Of these only the sum is needed: all
    /// values are between the one before them and their last.
    #[tactic(auto, using(crate::proofs::TakingLemmas::rising_taken))]
    fn pass_rising(&mut self, span: Span) -> bool
        ensures passed { IsTrue result → (values : List ℤ) (n : ℕ)
            → ArePassed span true values (sums_left self.old) n
            → ArePassed span true values (sums_left self.new) (n + 16) }
        ensures spelled { IsTrue result → PassesSpelled (left_of self.old) (left_of self.new) 16 }
        ensures kept { result ≡ false → left_of self.new ≡ left_of self.old }
    {
        let mut next = *self;
        let Some(rise) = next.entries.pass_rising() else {
            return false;
        };
        if !next.is_near(true) || next.total <= span.above {
            return false;
        }
        next.add_near(2 * u64::from(rise));
        if span.below <= next.total {
            return false;
        }
        *self = next;
        true
    }

    /// Skips values that a span has, sixteen at a time, as long as they rise by entries of one byte, and returns how many of `most` are
    /// left. If the values to be skipped are those that it lacks, none is.
    #[tactic(auto, using(crate::proofs::SpanLemmas::values_fit, crate::proofs::TakingLemmas::start_taken, crate::proofs::TakingLemmas::more_taken))]
    fn pass_runs(&mut self, span: Span, is_there: bool, most: usize) -> usize
        ensures past { ArePassed span is_there (sums_left self.old) (sums_left self.new)
            (most - result) }
        ensures spelled { PassesSpelled (left_of self.old) (left_of self.new) (most - result) }
        ensures fewer { result ≤ most }
    {
        self.entries.numbers_are_few();
        let mut left = most;
        'runs: while is_there && left >= 16 {
            if !self.pass_rising(span) {
                break;
            }
            left -= 16;
        }
        left
    }

    /// Skips values of the packed occurrence that was begun, as long as that is quick, and returns how many of `count` are still to be
    /// skipped. They are read from a copy, which stays in registers.
    pub(crate) fn pass_quick(&mut self, count: usize) -> usize
        ensures some { PassesSome self.old self.new count result }
        ensures spelled { PassesSpelled (left_of self.old) (left_of self.new) (count - result) }
    {
        let mut rest = *self;
        let mut left = rest.pass_runs(WHOLE_SPAN, true, count);
        'entries: while left > 0 {
            let last = rest.total;
            if !rest.pass_one() {
                break;
            }
            left -= 1;
            if rest.total == last {
                left -= rest.pass_same(left);
            }
        }
        *self = rest;
        left
    }

    /// Like [`Sums::pass`], and returns 0 if there are so many.
    fn pass_there(&mut self, count: usize) -> usize
        ensures passed { sums_left self.new ≡ drop count (sums_left self.old) }
        ensures there { result ≡ 0 → count ≤ length (sums_left self.old) }
    {
        let mut left = count;
        'values: while left > 0 {
            left = self.pass_quick(left);
            if left > 0 {
                if self.next_any().is_none() {
                    break;
                }
                left -= 1;
            }
        }
        left
    }

    /// Skips as many values, or all if there are fewer.
    pub fn pass(&mut self, count: usize)
        ensures { sums_left self.new ≡ drop count (sums_left self.old) }
    {
        let _left = self.pass_there(count);
    }

    /// Skips values as long as a span has them, or lacks them, and that is quick, but at most so many. They are read from a copy, which
    /// stays in registers.
    #[inline(always)]
    fn pass_alike(&mut self, span: Span, is_there: bool, most: usize) -> usize
        ensures past { ArePassed span is_there (sums_left self.old) (sums_left self.new) result }
        ensures fewer { result ≤ most }
    {
        let mut rest = *self;
        let mut left = rest.pass_runs(span, is_there, most);
        'alike: while left > 0 {
            let mut next = rest;
            let Some(value) = next.next_near(true) else {
                break;
            };
            if span.has(value) != is_there {
                break;
            }
            rest = next;
            left -= 1;
        }
        *self = rest;
        most - left
    }

    /// Skips values that a span has, at most so many, and returns how many. It stops at the first that the span lacks, or before that
    /// at one that isn't read quickly.
    pub fn pass_inside(&mut self, span: Span, most: usize) -> usize
        ensures past { ArePassed span true (sums_left self.old) (sums_left self.new) result }
        ensures fewer { result ≤ most }
    {
        self.pass_alike(span, true, most)
    }

    /// Skips values that a span lacks, at most so many, and returns how many. It stops at the first that the span has, or before that
    /// at one that isn't read quickly.
    pub fn pass_outside(&mut self, span: Span, most: usize) -> usize
        ensures past { ArePassed span false (sums_left self.old) (sums_left self.new) result }
        ensures fewer { result ≤ most }
    {
        self.pass_alike(span, false, most)
    }

    /// The next value, as [`Sums::next`] gives it: quicker in a column of which many values are the same as the one before.
    #[inline(always)]
    #[tactic(auto, using(crate::proofs::NextLemmas::values, crate::proofs::NextLemmas::once_more))]
    pub fn next_steady(&mut self) -> Option<i64>
        ensures { YieldsFirst sums_left self.old result self.new }
    {
        if self.entries.pass_short_zero() {
            return Some(self.total);
        }
        self.next()
    }

    /// Whether at least so many values are still to come.
    pub fn has(&self, count: usize) -> bool
        ensures { IsTrue result → count ≤ length (sums_left self.now) }
    {
        let mut rest = *self;
        rest.pass_there(count) == 0
    }

    /// How many values are still to come, if a quick test shows that each is strictly between -2^62 and 2^62; `None` says nothing. The
    /// test is for columns of that limit, and passes if the entries are few and small and the last value isn't far from 0. No entry is
    /// decoded.
    #[tactic(auto, using(crate::proofs::ShortLemmas::start_near, crate::proofs::ShortLemmas::values_counted, crate::proofs::ShortLemmas::values_within))]
    pub fn count_if_small(&self) -> Option<usize>
        ensures counted { MatchOption result ⊤ (λ count. count ≡ length (sums_left self.now)) }
        ensures within { MatchOption result ⊤
            (λ _. AllByRecursion (IsWithin (pos SUM_LIMIT)) (sums_left self.now)) }
    {
        if self.total.unsigned_abs() >= NEAR || self.limit != STORED_LIMIT {
            return None;
        }
        self.entries.count_if_small()
    }
}

impl<'a> Iterator for Sums<'a> {
    ghost use Rattle.std.specs.Iterator.{YieldsFirst, item_count};
    ghost use Rattle.pbf_wire.specs.Cursors.{sums_left};

    type Item = i64;

    ghost next_gives = { YieldsFirst sums_left };

    ghost remaining = { item_count sums_left };

    fn next(&mut self) -> Option<i64> {
        if let Some(value) = self.next_near(true) {
            return Some(value);
        }
        if self.entries.is_done() {
            return None;
        }
        self.next_any()
    }
}
