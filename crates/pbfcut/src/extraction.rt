//! The extracts, as tasks: an area and a strategy.

ghost use Rattle.osm_ways.specs.Selection.{all_parents, complete_ways, smart};
ghost use Rattle.osm_ways.specs.Whole.{is_wanted};
ghost use Rattle.pbfcut.specs.Tasks.{extracting};

use crate::smart::extract_smart_with_receipt;
use crate::sorted::{extract_parents_sorted_with_receipt, extract_sorted_with_receipt};
use crate::task::FileTask;
use osm_area::Area;
use osm_ways::WholeTypes;
use pbf_frame::{Drain, Feed};
use pbf_pass::{Halt, InputReceipt, Passes};
use std::hash::BuildHasher;

/// The complete-ways extract of an area.
#[derive(Clone, Copy)]
pub struct CompleteWays<A> {
    pub area: A,
}

impl<A: Area + Copy> FileTask for CompleteWays<A> {
    ghost task = { λ cut. extracting complete_ways (A.area cut.area) };

    fn pass_count(&self) -> usize {
        3
    }

    fn run<F: Feed, D: Drain, S: BuildHasher + Drop>(
        self,
        passes: Passes,
        feeds: &mut [F],
        drain: &mut D,
        hasher: S,
    ) -> Result<InputReceipt, Halt> {
        let (one, later) = feeds.split_at_mut(1);
        let (two, three) = later.split_at_mut(1);
        let one = &mut one[0];
        let two = &mut two[0];
        let three = &mut three[0];
        extract_sorted_with_receipt(passes, one, two, three, self.area, drain, hasher)
    }
}

/// The complete-ways extract of an area, with all parents.
#[derive(Clone, Copy)]
pub struct AllParents<A> {
    pub area: A,
}

impl<A: Area + Copy> FileTask for AllParents<A> {
    ghost task = { λ cut. extracting all_parents (A.area cut.area) };

    fn pass_count(&self) -> usize {
        4
    }

    fn run<F: Feed, D: Drain, S: BuildHasher + Drop>(
        self,
        passes: Passes,
        feeds: &mut [F],
        drain: &mut D,
        hasher: S,
    ) -> Result<InputReceipt, Halt> {
        let (one, later) = feeds.split_at_mut(1);
        let (two, rest) = later.split_at_mut(1);
        let (three, four) = rest.split_at_mut(1);
        let one = &mut one[0];
        let two = &mut two[0];
        let three = &mut three[0];
        let four = &mut four[0];
        extract_parents_sorted_with_receipt(passes, one, two, three, four, self.area, drain, hasher)
    }
}

/// The smart extract of an area, with relations of these types whole.
#[derive(Drop)]
pub struct Smart<A> {
    pub area: A,
    pub types: WholeTypes,
}

impl<A: Area + Copy> FileTask for Smart<A> {
    ghost task = { λ cut. extracting (smart (is_wanted cut.types)) (A.area cut.area) };

    fn pass_count(&self) -> usize {
        3
    }

    fn run<F: Feed, D: Drain, S: BuildHasher + Drop>(
        self,
        passes: Passes,
        feeds: &mut [F],
        drain: &mut D,
        hasher: S,
    ) -> Result<InputReceipt, Halt> {
        let Smart { area, types } = self;
        let (one, later) = feeds.split_at_mut(1);
        let (two, three) = later.split_at_mut(1);
        let one = &mut one[0];
        let two = &mut two[0];
        let three = &mut three[0];
        extract_smart_with_receipt(passes, one, two, three, area, types, drain, hasher)
    }
}
