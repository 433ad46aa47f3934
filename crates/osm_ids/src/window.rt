//! Look-ups of ids that lie close together. One in the known span is inlined, the others are a call.

ghost use Rattle.std.specs.Prelude.{◌≡◌, ◌<◌};
ghost use Rattle.std.specs.FinSet as set;
ghost use Rattle.std.specs.Ordering.{int_cmp};
ghost use Rattle.osm_ids.specs.Windows.{HasAll, IsOf, Lacks, TellsOfId};

use crate::page::{Known, PageIds};
use crate::pages::SealedIds;
use pbf_wire::{EMPTY_SPAN, Span};

/// Ids that are looked up through a window beside them, in a sealed set or in one that may still grow.
pub trait IdLookup {
    /// The ids, as a finite set.
    ghost ids: { Self → set.FinSet int_cmp };

    /// Whether the id is among them. The window is true of them, before and after.
    fn has_near(&self, window: &mut Window, id: i64) -> bool
        requires { IsOf (ids self.now) window.old }
        ensures has { result ≡ set.contains (ids self.now) id }
        ensures of { IsOf (ids self.now) window.new };
}

impl IdLookup for SealedIds {
    ghost ids = { λ a. a };

    fn has_near(&self, window: &mut Window, id: i64) -> bool {
        window.has(self, id)
    }
}

/// How many pages are kept: refs of a way are often ids of a few pages in turn.
const KEPT: usize = 8;

/// What look-ups in one set learnt: the ids of the pages that were read last, and a span round the last id, of which the set has all
/// ids or none. It holds nothing of the set, and so is kept beside it.
#[derive(Drop)]
pub struct Window {
    pages: [PageIds; KEPT],
    /// Which page gives way to the next one that is read.
    next: usize,
    /// What is known of the ids round the last one.
    known: Known,
}

impl Window {
    /// Nothing is known, of whatever set.
    pub fn new() -> Window
        ensures { (ids : set.FinSet int_cmp) → IsOf ids result }
    {
        Window {
            pages: [PageIds::new(); KEPT],
            next: 0,
            known: Known {
                span: EMPTY_SPAN,
                there: false,
            },
        }
    }

    /// Whether the set has the id, in whatever order ids come. One in the known span takes two comparisons.
    #[inline(always)]
    pub fn has(&mut self, ids: &SealedIds, id: i64) -> bool
        requires { IsOf ids.now self.old }
        ensures has { result ≡ set.contains ids.now id }
        ensures of { IsOf ids.now self.new }
    {
        if !self.known.span.has(id) {
            self.find(ids, id);
        }
        self.known.there
    }

    /// Ids that the set lacks, as far as the last look-up showed: none if it showed nothing.
    pub fn absent(&self) -> Span
        ensures { (ids : set.FinSet int_cmp) → IsOf ids self.now → Lacks ids result }
    {
        let Known { span, there } = self.known;
        if there { EMPTY_SPAN } else { span }
    }

    /// Ids that the set has, all of them, as far as the last look-up showed: none if it showed nothing.
    pub fn present(&self) -> Span
        ensures { (ids : set.FinSet int_cmp) → IsOf ids self.now → HasAll ids result }
    {
        let Known { span, there } = self.known;
        if there { span } else { EMPTY_SPAN }
    }

    /// Learns whether the set has the id, from a page that is kept if one covers the id.
    #[inline(never)]
    fn find(&mut self, ids: &SealedIds, id: i64)
        requires { IsOf ids.now self.old }
        ensures of { IsOf ids.now self.new }
        ensures told { TellsOfId ids.now id self.new.known }
    {
        let at = place_for(&self.pages, self.next, id);
        self.known = self.pages[at].find(ids, id);
        if at == self.next && self.pages[at].covers(id) {
            self.next = (at + 1) % KEPT;
        }
    }
}

/// The place of a page that covers the id, and otherwise the next one that is given up.
fn place_for(pages: &[PageIds; KEPT], next: usize, id: i64) -> usize
    requires { next < 8 }
    ensures { result < 8 }
{
    let mut at = 0;
    'pages: while at < KEPT {
        if pages[at].covers(id) {
            return at;
        }
        at += 1;
    }
    next
}
