//! A running sum that stays within its limit.

ghost use Rattle.std.specs.Prelude.{◌≡◌, pos, ◌+ℤ◌, ◌≤ℤ◌, MatchOption, IfNone};
ghost use Rattle.pbf_wire.specs.Signed.{IsWithin};
ghost use Rattle.pbf_wire.specs.Sums.{Total, added};

use std::marker::Model;

/// The sum of the numbers that were added, strictly between `-limit` and `limit`. The value of a delta column is the sum of
/// its entries so far.
#[derive(Clone, Copy)]
pub struct Sum {
    total: i64,
    limit: i64,
}

impl Model for Sum {
    ghost Value = { Total };

    ghost view = { λ s. record { total = s.total; limit = s.limit } };

    ghost invariant = { λ s. pos 1 ≤ℤ s.limit };

    ghost inverse = { λ v. record { total = v.total; limit = v.limit } };
}

/// The sum of two numbers, if it is strictly between `-limit` and `limit`.
#[tactic(auto, unfolding(crate::specs::Sums::added))]
pub(crate) fn added(total: i64, number: i64, limit: i64) -> Option<i64>
    requires { pos 1 ≤ℤ limit }
    ensures sum { MatchOption result (¬ IsWithin limit (total +ℤ number)) (λ sum. (sum
        ≡ total +ℤ number) × IsWithin limit sum) }
    ensures exact { result ≡ added limit total number }
{
    let sum = total.checked_add(number)?;
    if -limit < sum && sum < limit {
        Some(sum)
    } else {
        None
    }
}

impl Sum {
    /// The sum of nothing, which is 0.
    pub fn new(limit: i64) -> Self
        requires { pos 1 ≤ℤ limit }
        ensures { result ≡ record { total = pos 0; limit = limit } }
    {
        Sum { total: 0, limit }
    }

    /// Adds a number and returns the sum; `None`, and the sum as it was, if it would reach `limit` or `-limit`.
    pub fn add(&mut self, number: i64) -> Option<i64>
        ensures sum { MatchOption result (¬ IsWithin self.old.limit (self.old.total +ℤ number))
            (λ sum. (sum ≡ self.old.total +ℤ number) × IsWithin self.old.limit sum
            × (self.new.total ≡ sum)) }
        ensures limit { self.new.limit ≡ self.old.limit }
        ensures unchanged { IfNone result (self.new ≡ self.old) }
    {
        let sum = added(self.total, number, self.limit)?;
        self.total = sum;
        Some(sum)
    }
}
