//! Rising ids in pages.

ghost use Rattle.std.specs.Prelude.{◌≡◌, ◌<◌, length, List, ℤ, true, false, IfSome, IfNone, OnOk, OnErr};
ghost use Rattle.std.specs.Int.{div_ceil};
ghost use Rattle.std.specs.FinSet as set;
ghost use Rattle.osm_ids.specs.Pages.{IsRising, pages_of, bytes_of_pages, rising};
ghost use Rattle.osm_ids.specs.Index.{HasPage, ArePagesUpTo, IsPageRead};
ghost use Rattle.osm_ids.specs.Order.{IsAbove, IsReached};
ghost use Rattle.osm_ids.specs.Windows.{IsPageOf, TellsOfId};

use crate::index::{PAGE, PageStart, begins_up_to, bytes_from, first_id};
use crate::page::{Known, PageIds, told};
use pbf_wire::put_varint;
use std::alloc::{AllocError, Global};
use std::marker::Model;

/// A set of ids: the ids in rising order, in pages of 128, the last of at most as many. The index holds each page's first id. Each
/// other id is the shortest varint of its difference to the one before, all pages in one `Vec`. Contracts see it as a finite set of
/// numbers.
#[derive(Drop)]
pub struct SealedIds {
    index: Vec<PageStart>,
    bytes: Vec<u8>,
    count: u64,
    /// The greatest id; of no ids the least number.
    last: i64,
}

impl Model for SealedIds {
    ghost use Rattle.std.specs.Prelude.{◌≡◌, ◌<◌, List, length, ℤ, pos};
    ghost use Rattle.std.specs.Ordering.{int_cmp};
    ghost use Rattle.std.specs.Coded.{coded_ℤ};
    ghost use Rattle.std.specs.FinSet as set;
    ghost use Rattle.pbf_wire.specs.Packed.{last_from};
    ghost use Rattle.osm_ids.specs.Pages.{IsSealed};
    ghost use Rattle.osm_ids.specs.Index.{set_in};

    ghost Value = { set.FinSet int_cmp };

    ghost coded = { set.code coded_ℤ };

    ghost view = { λ a. set_in a.index.items a.bytes.items };

    ghost invariant = { λ a. (ids : List ℤ) × IsSealed a.index.items a.bytes.items ids
        × (a.count ≡ length ids) × (0 < length ids → a.last ≡ last_from (pos 0) ids) };
}

impl SealedIds {
    /// No ids, which allocate nothing yet.
    pub(crate) fn new(alloc: Global) -> SealedIds
        ensures { result ≡ set.empty }
    {
        SealedIds {
            index: Vec::new(alloc),
            bytes: Vec::new(alloc),
            count: 0,
            last: i64::MIN,
        }
    }

    /// Whether the id is above all others, so that it can be appended.
    pub(crate) fn takes(&self, id: i64) -> bool
        ensures above { result ≡ true → IsAbove self.now id }
        ensures reached { result ≡ false → IsReached self.now id }
    {
        self.last < id || self.count == 0
    }

    /// Appends an id that is above all others: it begins a page if the last page is full. An `Err` leaves the ids as they were.
    pub(crate) fn push(&mut self, id: i64) -> Result<(), AllocError>
        requires { IsAbove self.old id }
        ensures ok { OnOk result (self.new ≡ set.insert self.old id) }
        ensures err { OnErr result (self.new ≡ self.old) }
    {
        if self.count % PAGE == 0 {
            self.index.push(PageStart {
                first: id,
                place: self.bytes.len(),
            })?;
        } else {
            put_varint(&mut self.bytes, id.abs_diff(self.last))?;
        }
        self.count += 1;
        self.last = id;
        Ok(())
    }

    /// Whether the set has the id: the index is searched by halves, and one page is read.
    pub fn has(&self, id: i64) -> bool
        ensures { result ≡ set.contains self.now id }
    {
        PageIds::new().find(self, id).there
    }

    /// How many ids the set has.
    pub fn count(&self) -> u64
        ensures { result ≡ set.len self.now }
    {
        self.count
    }

    /// How many pages the ids lie in.
    pub fn pages(&self) -> u64
        ensures { result ≡ div_ceil (set.len self.now) 128 }
    {
        self.index.len() as u64
    }

    /// How many bytes spell the ids of all pages, the first of each page apart. A set has one rising list, so this is one number.
    pub fn bytes(&self) -> u64
        ensures { (ids : List ℤ) → IsRising ids → set.from_list ids ≡ self.now
            → result ≡ length (bytes_of_pages (pages_of ids)) }
    {
        self.bytes.len() as u64
    }

    /// What the index says of an id and those round it. If it says nothing, the page that the id is in is read.
    /// It is a call, which few look-ups take.
    #[inline(never)]
    pub(crate) fn look(&self, id: i64, page: &mut PageIds) -> Option<Known>
        ensures some { IfSome result (λ known. TellsOfId self.now id known
            × (page.new ≡ page.old)) }
        ensures none { IfNone result (IsPageOf self.now id page.new) }
    {
        if self.last < id {
            return Some(told(false, self.last, i64::MAX));
        }
        let begun = self.begun(id);
        if begun == 0 {
            return Some(told(false, i64::MIN, first_id(&self.index)));
        }
        if let Some(known) = self.whole(begun) {
            return Some(known);
        }
        self.read(begun - 1, page);
        None
    }

    /// How many pages begin at or below the id.
    fn begun(&self, id: i64) -> usize
        ensures { ArePagesUpTo (rising self.now) id result }
    {
        self.index.partition_point(|start| begins_up_to(start, id))
    }

    /// The ids of the page before a place of the index, if the next page begins 128 above its first: it has 128, so the set has
    /// all between. None is read then.
    fn whole(&self, begun: usize) -> Option<Known>
        requires { 0 < begun }
        ensures { (id : ℤ) → ArePagesUpTo (rising self.now) id begun
            → IfSome result (λ known. TellsOfId self.now id known) }
    {
        let next = self.index.get(begun)?;
        let first = self.index[begun - 1].first;
        if next.first.abs_diff(first) != PAGE {
            return None;
        }
        Some(told(true, first, next.first))
    }

    /// Reads the ids of a page.
    pub(crate) fn read(&self, page: usize, ids: &mut PageIds)
        requires { HasPage (rising self.now) page }
        ensures { IsPageRead (rising self.now) page ids.new }
    {
        let start = self.index[page];
        ids.read(start.first, bytes_from(&self.bytes, start.place));
        if page + 1 < self.index.len() {
            ids.below = self.index[page + 1].first;
        }
    }
}
