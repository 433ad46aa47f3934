//! The refs of a way, wherever they lie. `next` is inlined, so that the cursor of a loop over refs stays in registers.

ghost use Rattle.std.specs.Prelude.{◌≡◌, IfOk};
ghost use Rattle.osm_entity.specs.Sources.{refs_left};

use pbf_wire::{Span, Sums};
use std::alloc::{AllocError, Global};

/// The refs of a way that are still to come, each the id of a node.
#[derive(Clone, Copy)]
pub enum Refs<'a> {
    Owned(&'a [i64]),
    Summed(Sums<'a>),
}

impl<'a> Refs<'a> {
    ghost use Rattle.std.specs.Prelude.{⊤, true, MatchOption, drop, length, take};
    ghost use Rattle.std.specs.List.{AllByRecursion};
    ghost use Rattle.pbf_wire.specs.Spans.{AreAlike};
    ghost use Rattle.osm_entity.specs.Ranges.{IsStored};

    /// How many refs are still to come, if a quick test shows that each is in its range; `None` says nothing.
    pub(crate) fn count_stored(&self) -> Option<usize>
        ensures counted { MatchOption result ⊤ (λ count. count ≡ length (refs_left self.now)) }
        ensures stored { MatchOption result ⊤
            (λ _. AllByRecursion IsStored (refs_left self.now)) }
    {
        match self {
            Refs::Owned(_) => None,
            Refs::Summed(refs) => refs.count_if_small(),
        }
    }

    /// Skips refs that a span has, and returns how many. It stops at the first that the span lacks, or before that at one that isn't
    /// read quickly.
    pub fn pass_inside(&mut self, span: Span) -> usize
        ensures passed { refs_left self.new ≡ drop result (refs_left self.old) }
        ensures inside { AreAlike span true (take result (refs_left self.old)) }
    {
        match self {
            Refs::Owned(_) => 0,
            Refs::Summed(refs) => refs.pass_inside(span, usize::MAX),
        }
    }
}

impl<'a> Iterator for Refs<'a> {
    ghost use Rattle.std.specs.Iterator.{YieldsFirst, item_count};
    ghost use Rattle.osm_entity.specs.Sources.{refs_left};

    type Item = i64;

    ghost next_gives = { YieldsFirst refs_left };

    ghost remaining = { item_count refs_left };

    #[inline(always)]
    fn next(&mut self) -> Option<i64> {
        match self {
            Refs::Owned(refs) => {
                let (first, rest) = refs.split_first()?;
                *refs = rest;
                Some(*first)
            }
            Refs::Summed(refs) => refs.next(),
        }
    }
}

/// The same refs in a vector.
pub(crate) fn owned_refs(alloc: Global, refs: Refs<'_>) -> Result<Vec<i64>, AllocError>
    ensures { IfOk result (λ owned. owned.items ≡ refs_left refs.entry) }
{
    refs.collect(alloc)
}
