//! The numbers between two others.

ghost use Rattle.std.specs.Prelude.{◌≡◌, ℤ, true};
ghost use Rattle.pbf_wire.specs.Spans.{is_in};

/// The numbers above one and below another: none if no number is between these.
#[derive(Clone, Copy)]
pub struct Span {
    pub above: i64,
    pub below: i64,
}

/// The span without a number.
pub const EMPTY_SPAN: Span = Span { above: 0, below: 0 };

/// The span that has all numbers of a column.
pub(crate) const WHOLE_SPAN: Span = Span {
    above: i64::MIN,
    below: i64::MAX,
};

impl Span {
    /// Whether a number is one of these.
    pub fn has(self, number: i64) -> bool
        ensures { result ≡ is_in self number }
    {
        self.above < number && number < self.below
    }

    /// The numbers that two spans have in common.
    pub fn common(self, other: Span) -> Span
        ensures { (number : ℤ) → is_in result number ≡ true
            → (is_in self number ≡ true) × (is_in other number ≡ true) }
    {
        Span {
            above: self.above.max(other.above),
            below: self.below.min(other.below),
        }
    }
}
