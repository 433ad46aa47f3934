//! The ids of a set, one after the other.

ghost use Rattle.std.specs.Prelude.{◌≡◌};
ghost use Rattle.std.specs.Iterator.{YieldsFirst};
ghost use Rattle.osm_ids.specs.Pages.{rising};

use crate::index::PAGE;
use crate::page::PageIds;
use crate::pages::SealedIds;
use std::marker::Model;

/// The ids of a set that are still to come, in rising order. It does not allocate. Contracts see it as their list.
#[derive(Drop)]
pub(crate) struct Walk<'a> {
    ids: &'a SealedIds,
    /// How many ids came.
    came: usize,
    /// The page of the last of them.
    here: PageIds,
}

impl<'a> Model for Walk<'a> {
    ghost use Rattle.std.specs.Prelude.{◌≡◌, ◌<◌, ◌*◌, ◌/◌, ◌%◌, List, ℤ, take, drop};
    ghost use Rattle.osm_ids.specs.Pages.{rising};
    ghost use Rattle.osm_ids.specs.Windows.{held};

    ghost Value = { List ℤ };

    ghost view = { λ a. drop a.came (rising a.ids.now) };

    ghost invariant = { λ a. 0 < a.came % 128
        → held a.here ≡ take 128 (drop (128 * (a.came / 128)) (rising a.ids.now)) };
}

impl<'a> Walk<'a> {
    /// All ids of a set.
    pub(crate) fn new(ids: &'a SealedIds) -> Walk<'a>
        ensures { result ≡ rising ids.now }
    {
        Walk {
            ids,
            came: 0,
            here: PageIds::new(),
        }
    }

    /// The next id, which is one of those that come no more.
    pub(crate) fn next(&mut self) -> Option<i64>
        ensures { YieldsFirst (λ ids. ids) self.old result self.new }
    {
        if self.came as u64 >= self.ids.count() {
            return None;
        }
        if self.came % PAGE as usize == 0 {
            self.ids.read(self.came / PAGE as usize, &mut self.here);
        }
        let id = self.here.ids[self.came % PAGE as usize];
        self.came += 1;
        Some(id)
    }
}
