//! The ids of one page, as numbers. A look-up is inlined; to read a page is a call, which few look-ups take.

ghost use Rattle.std.specs.Prelude.{◌≡◌, ◌+◌, ◌<◌, ◌≤◌, ◌++◌, ◌<ℤ◌, ◌≤ℤ◌, int_lt, length, take, List, [], ◌∷◌, ℕ, ℤ, IsTrue};
ghost use Rattle.std.specs.List.{list_any};
ghost use Rattle.std.specs.Ordering.{int_eq, int_cmp};
ghost use Rattle.std.specs.FinSet as set;
ghost use Rattle.pbf_wire.specs.Packed.{numbers_of};
ghost use Rattle.osm_ids.specs.Pages.{AllFit, IsRising, ReadsPage, raised};
ghost use Rattle.osm_ids.specs.Windows.{BeginsUpTo, IsTruePage, IsTrueSpan, IsSameOrNext, IsPlaceAmong, IsRunOfIds, TellsOfId, held, first_held, last_held};

use crate::pages::SealedIds;
use pbf_wire::{Column, Span};

/// What is known of the ids of a span: the set has all of them, or none.
#[derive(Clone, Copy)]
pub(crate) struct Known {
    pub(crate) span: Span,
    pub(crate) there: bool,
}

/// What is known of the ids above one number and below another.
pub(crate) fn told(there: bool, above: i64, below: i64) -> Known
    ensures { result ≡ record { span = record { above = above; below = below }; there = there } }
{
    Known {
        span: Span { above, below },
        there,
    }
}

/// The ids of one page in rising order, and the id up to which the set has no others.
#[derive(Clone, Copy)]
pub(crate) struct PageIds {
    pub(crate) ids: [i64; 128],
    pub(crate) count: usize,
    /// The set has no other ids from the first of these up to here.
    pub(crate) below: i64,
}

impl PageIds {
    /// No ids of whatever set.
    pub(crate) fn new() -> PageIds
        ensures kept { (ids : set.FinSet int_cmp) → IsTruePage ids result }
        ensures none { result.count ≡ 0 }
        ensures empty { held result ≡ [] }
    {
        PageIds {
            ids: [0; 128],
            count: 0,
            below: i64::MIN,
        }
    }

    /// Whether these are all ids of the set that are near this one.
    pub(crate) fn covers(&self, id: i64) -> bool
        ensures { IsTrue result → (first_held self.now ≤ℤ id) × (id <ℤ self.now.below) }
    {
        self.ids[0] <= id && id < self.below
    }

    /// Whether a set has the id, and ids round it of which the same holds. If these ids aren't near, the page that it is in is read.
    #[inline(always)]
    pub(crate) fn find(&mut self, ids: &SealedIds, id: i64) -> Known
        requires { IsTruePage ids.now self.old }
        ensures kept { IsTruePage ids.now self.new }
        ensures told { TellsOfId ids.now id result }
    {
        if !self.covers(id) {
            if let Some(known) = ids.look(id, self) {
                return known;
            }
        }
        self.round(id)
    }

    /// Reads a page with that first id: 128 ids, or fewer if the bytes end. No other page follows, as long as none is named.
    #[inline(never)]
    pub(crate) fn read(&mut self, first: i64, bytes: &[u8])
        ensures count { (0 < self.new.count) × (self.new.count ≤ 128) }
        ensures ids { AllFit (raised first (take 127 (numbers_of bytes.now)))
            → held self.new ≡ first ∷ raised first (take 127 (numbers_of bytes.now)) }
        ensures below { IsSameOrNext (last_held self.new) self.new.below }
    {
        let mut gaps = Column::packed(bytes);
        self.ids[0] = first;
        self.count = 1;
        self.rise(gaps.pass_singles(127));
        'ids: while self.count < 128 {
            let Some(gap) = gaps.next() else {
                break 'ids;
            };
            // A page's ids fit, so this wraps in no page.
            self.ids[self.count] = self.ids[self.count - 1].wrapping_add_unsigned(gap);
            self.count += 1;
            self.rise(gaps.pass_singles(128 - self.count));
        }
        self.below = after(self.ids[self.count - 1]);
    }

    /// Adds ids that are so far above one another.
    fn rise(&mut self, gaps: &[u8])
        requires some { 0 < self.old.count }
        requires within { self.old.count + length gaps.now ≤ 128 }
        ensures count { self.new.count ≡ self.old.count + length gaps.now }
        ensures ids { (all : List ℤ) (more : List ℕ)
            → ReadsPage all (held self.old) (gaps.now ++ more)
            → ReadsPage all (held self.new) more }
    {
        let mut last = self.ids[self.count - 1];
        let mut count = self.count;
        for gap in gaps.iter() {
            last = last.wrapping_add_unsigned(u64::from(*gap));
            self.ids[count] = last;
            count += 1;
        }
        self.count = count;
    }

    /// Whether an id that isn't below the first is one of these, and ids from it on, or round it, of which the same holds.
    fn round(&self, id: i64) -> Known
        requires { BeginsUpTo self.now id }
        ensures there { result.there ≡ list_any (int_eq id) (held self.now) }
        ensures known { (ids : set.FinSet int_cmp) → IsTruePage ids self.now
            → IsTrueSpan ids result }
    {
        let ids = &self.ids[..self.count];
        let at = place_of(ids, id);
        if at == ids.len() {
            return told(false, ids[at - 1], self.below);
        }
        if ids[at] != id {
            return told(false, ids[at - 1], ids[at]);
        }
        let to = run_after(ids, at);
        told(true, before(ids[at]), after(ids[to]))
    }
}

/// How many of rising ids are below an id.
fn place_of(ids: &[i64], id: i64) -> usize
    requires { IsRising ids.now }
    ensures { IsPlaceAmong ids.now id result }
{
    ids.partition_point(|other| is_below(other, id))
}

/// Whether a number is below an id.
fn is_below(other: &i64, id: i64) -> bool
    ensures { result ≡ int_lt other.now id }
{
    *other < id
}

/// The number before another, if there is one.
fn before(number: i64) -> i64
    ensures { (x : ℤ) → result <ℤ x → number ≤ℤ x }
{
    if number == i64::MIN {
        number
    } else {
        number - 1
    }
}

/// The number after another, if there is one.
fn after(number: i64) -> i64
    ensures { IsSameOrNext number result }
{
    if number == i64::MAX {
        number
    } else {
        number + 1
    }
}

/// The place of the last of the ids that rise by one from a place on.
fn run_after(ids: &[i64], at: usize) -> usize
    requires { at < length ids.now }
    ensures high { (at ≤ result) × (result < length ids.now) }
    ensures run { IsRunOfIds ids.now at result }
{
    let mut to = at;
    let mut step = 8;
    'up: while step > 0 {
        if step < ids.len() - to && ids[to + step].abs_diff(ids[at]) == (to - at + step) as u64 {
            to += step;
        } else {
            step /= 8;
        }
    }
    to
}
