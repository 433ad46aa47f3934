//! The ids of the nodes that lie in a box.

ghost use Rattle.std.specs.Prelude.{◌≡◌, ◌<◌, ◌-◌, ◌∷◌, ◌^◌, [], false, ⊤, MatchOption, drop, take};
ghost use Rattle.pbf_wire.specs.Cursors.{sums_left};
ghost use Rattle.pbf_wire.specs.Spans.{AreAlike};

use pbf_wire::{Span, Sums};

/// A value, and how many were skipped before it.
#[derive(Clone, Copy)]
struct Reached {
    skipped: usize,
    value: i64,
}

/// Skips values that a span lacks, and takes the next one, which it has.
fn reach(values: &mut Sums<'_>, span: Span) -> Option<Reached>
    ensures outside { MatchOption result (AreAlike span false (sums_left values.old))
        (λ r. AreAlike span false (take r.skipped (sums_left values.old))) }
    ensures left { MatchOption result (sums_left values.new ≡ [])
        (λ r. drop r.skipped (sums_left values.old) ≡ r.value ∷ sums_left values.new) }
    ensures few { MatchOption result ⊤ (λ r. r.skipped < 2 ^ 64 - 1) }
{
    let mut skipped = values.pass_outside(span, usize::MAX);
    'values: while let Some(value) = values.next() {
        if span.has(value) {
            return Some(Reached { skipped, value });
        }
        skipped += 1;
        skipped += values.pass_outside(span, usize::MAX);
    }
    None
}

/// The ids of those nodes of a dense message that lie in a box and are still to come: an iterator over three of its columns, which
/// does not allocate. Of most nodes that lie elsewhere only the longitude is decoded.
#[derive(Clone, Copy)]
pub struct IdsWithin<'a> {
    pub(crate) ids: Sums<'a>,
    pub(crate) lats: Sums<'a>,
    pub(crate) lons: Sums<'a>,
    /// The stored latitudes of the box.
    pub(crate) lat_span: Span,
    /// The stored longitudes of the box.
    pub(crate) lon_span: Span,
}

impl<'a> IdsWithin<'a> {
    ghost use Rattle.std.specs.Prelude.{◌≡◌, ◌<◌, ◌&&◌, [], ⊤, MatchOption, length};
    ghost use Rattle.pbf_wire.specs.Cursors.{sums_left};
    ghost use Rattle.pbf_wire.specs.Spans.{is_in};
    ghost use Rattle.pbf_dense.specs.Within.{ids_within_left, after_one, after_lon};

    /// Skips a node whose longitude was taken, and those after it that lie outside by their longitude. Returns the longitude of the
    /// node that comes then. If there is none, the ids and latitudes are left where they are.
    /// It is a call, which the other nodes need not take.
    #[inline(never)]
    #[tactic(auto, unfolding(crate::specs::Within::ids_within_left))]
    fn skip_outside(&mut self) -> Option<i64>
        ensures left { MatchOption result (after_one self.old ≡ [])
            (λ lon. after_one self.old ≡ after_lon lon self.new) }
        ensures ended { MatchOption result (ids_within_left self.new ≡ []) (λ _. ⊤) }
        ensures fewer { MatchOption result ⊤
            (λ _. length (sums_left self.new.lons) < length (sums_left self.old.lons)) }
    {
        let reached = reach(&mut self.lons, self.lon_span)?;
        self.ids.pass(reached.skipped + 1);
        self.lats.pass(reached.skipped + 1);
        Some(reached.value)
    }

    /// Whether a node of this stored place lies in the box.
    fn has_place(&self, lat: i64, lon: i64) -> bool
        ensures { result ≡ (is_in self.now.lat_span lat && is_in self.now.lon_span lon) }
    {
        self.lat_span.has(lat) && self.lon_span.has(lon)
    }

    /// The longitude of the next node that may lie in the box, if there is one. Its id and latitude are the next ones.
    #[tactic(auto, unfolding(crate::specs::Within::ids_within_left))]
    fn next_lon(&mut self) -> Option<i64>
        ensures left { MatchOption result (ids_within_left self.old ≡ [])
            (λ lon. ids_within_left self.old ≡ after_lon lon self.new) }
        ensures ended { MatchOption result (ids_within_left self.new ≡ []) (λ _. ⊤) }
        ensures fewer { MatchOption result ⊤
            (λ _. length (sums_left self.new.lons) < length (sums_left self.old.lons)) }
    {
        let lon = self.lons.next()?;
        if self.lon_span.has(lon) {
            return Some(lon);
        }
        self.skip_outside()
    }
}

impl<'a> Iterator for IdsWithin<'a> {
    ghost use Rattle.std.specs.Iterator.{YieldsFirst, item_count};
    ghost use Rattle.pbf_dense.specs.Within.{ids_within_left};

    type Item = i64;

    ghost next_gives = { YieldsFirst ids_within_left };

    ghost remaining = { item_count ids_within_left };

    // Each first phase has a loop of its own over these, into which a call would not be inlined.
    #[inline(always)]
    fn next(&mut self) -> Option<i64> {
        'nodes: while let Some(lon) = self.next_lon() {
            let id = self.ids.next()?;
            let lat = self.lats.next()?;
            if self.has_place(lat, lon) {
                return Some(id);
            }
        }
        None
    }
}
