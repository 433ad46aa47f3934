//! A set of ids that grows.

ghost use Rattle.std.specs.Prelude.{◌≡◌, not, IfOk, IfErr, OnOk, OnErr};
ghost use Rattle.std.specs.FinSet as set;
ghost use Rattle.osm_ids.specs.Order.{AreLate, IsReached};

use crate::page::PageIds;
use crate::pages::SealedIds;
use crate::walk::Walk;
use crate::window::{IdLookup, Window};
use std::alloc::{AllocError, Global};
use std::collections::BTreeSet;
use std::marker::Model;

/// A set of ids that grows: an id above all others is appended to pages at once, as the sealed set has it, and one that comes out of
/// order is kept beside them. Contracts see it as a finite set of numbers.
#[derive(Drop)]
pub struct IdSet {
    pub(crate) pages: SealedIds,
    /// The ids that came after a greater one had been appended.
    pub(crate) late: BTreeSet<i64>,
    /// The page in which the last of these was looked up.
    here: PageIds,
    alloc: Global,
}

impl Model for IdSet {
    ghost use Rattle.std.specs.Ordering.{int_cmp};
    ghost use Rattle.std.specs.Coded.{coded_ℤ};
    ghost use Rattle.std.specs.FinSet as set;
    ghost use Rattle.osm_ids.specs.Order.{AreLate};
    ghost use Rattle.osm_ids.specs.Windows.{IsTruePage};

    ghost Value = { set.FinSet int_cmp };

    ghost coded = { set.code coded_ℤ };

    ghost view = { λ a. set.union a.pages (set.from_list a.late.keys) };

    ghost invariant = { λ a. AreLate a.pages a.late.keys × IsTruePage a.pages a.here };
}

impl IdSet {
    /// The empty set, which allocates nothing yet.
    pub fn new(alloc: Global) -> IdSet
        ensures { result ≡ set.empty }
    {
        IdSet {
            pages: SealedIds::new(alloc),
            late: BTreeSet::new(alloc),
            here: PageIds::new(),
            alloc,
        }
    }

    /// Adds an id, and says whether it is new. An `Err` leaves the set as it was.
    pub fn add(&mut self, id: i64) -> Result<bool, AllocError>
        ensures new { IfOk result (λ new. new ≡ not (set.contains self.old id)) }
        ensures ok { OnOk result (self.new ≡ set.insert self.old id) }
        ensures err { OnErr result (self.new ≡ self.old) }
    {
        if self.pages.takes(id) {
            self.pages.push(id)?;
            return Ok(true);
        }
        self.add_late(id)
    }

    /// Adds an id that is no greater than all others. It is a call, since few ids are.
    #[inline(never)]
    fn add_late(&mut self, id: i64) -> Result<bool, AllocError>
        requires { IsReached self.old id }
        ensures new { IfOk result (λ new. new ≡ not (set.contains self.old id)) }
        ensures ok { OnOk result (self.new ≡ set.insert self.old id) }
        ensures err { OnErr result (self.new ≡ self.old) }
    {
        if self.here.find(&self.pages, id).there {
            return Ok(false);
        }
        Ok(self.late.insert(id)?)
    }

    /// How many ids the set has, at most the greatest number of 64 bits. It has no contract: only speed and space may depend on it.
    pub fn count(&self) -> u64 {
        self.pages.count().saturating_add(self.late.len() as u64)
    }

    /// The ids, in no order.
    pub(crate) fn to_vec(&self) -> Result<Vec<i64>, AllocError>
        ensures { IfOk result (λ ids. set.from_list ids.items ≡ self.now) }
    {
        let mut ids = Vec::new(self.alloc);
        let mut walk = Walk::new(&self.pages);
        'ids: while let Some(id) = walk.next() {
            ids.push(id)?;
        }
        for id in self.late.iter() {
            ids.push(*id)?;
        }
        Ok(ids)
    }

    /// Sorts the ids that came out of order among the others, so that all are looked up alike. Allocates only if there are any. The
    /// set stays the same, after an `Err` too.
    pub fn settle(&mut self) -> Result<(), AllocError>
        ensures { self.new ≡ self.old }
    {
        if !self.late.is_empty() {
            self.pages = merged(self.alloc, &self.pages, &self.late)?;
            self.late = BTreeSet::new(self.alloc);
            self.here = PageIds::new();
        }
        Ok(())
    }

    /// The same ids, to be looked up. Does not allocate if each id was above all that came before it. A refusal returns the set.
    pub fn seal(self) -> Result<SealedIds, (IdSet, AllocError)>
        ensures ok { IfOk result (λ sealed. sealed ≡ self) }
        ensures err { IfErr result (λ refused. refused.0 ≡ self) }
    {
        if self.late.is_empty() {
            return Ok(self.pages);
        }
        match merged(self.alloc, &self.pages, &self.late) {
            Ok(pages) => Ok(pages),
            Err(error) => Err((self, error)),
        }
    }
}

impl IdLookup for IdSet {
    ghost ids = { λ a. a };

    /// The window serves only a set of which no id came out of order since it was settled. It is inlined
    /// where each node is looked up.
    #[inline(always)]
    fn has_near(&self, window: &mut Window, id: i64) -> bool {
        if self.late.is_empty() {
            return window.has(&self.pages, id);
        }
        self.pages.has(id) || self.late.contains(&id)
    }
}

/// The ids of a set and late ones beside it, in new pages.
fn merged(alloc: Global, ids: &SealedIds, late: &BTreeSet<i64>) -> Result<SealedIds, AllocError>
    requires { AreLate ids.now late.now.keys }
    ensures { IfOk result (λ all. all ≡ set.union ids.now (set.from_list late.now.keys)) }
{
    let mut all = SealedIds::new(alloc);
    let mut late = late.iter();
    let mut next = late.next().copied();
    let mut walk = Walk::new(ids);
    // Each late id is below one of the set, so none is left over.
    'ids: while let Some(id) = walk.next() {
        'late: while let Some(other) = next {
            if id < other {
                break 'late;
            }
            all.push(other)?;
            next = late.next().copied();
        }
        all.push(id)?;
    }
    Ok(all)
}
