//! The first phase of a file in order, if all parents of kept relations are kept too: it takes nodes, ways and relations.

ghost use Rattle.std.specs.Prelude.{◌≡◌};
ghost use Rattle.osm_ways.specs.Sorted.{before_more, sorted_step, start_sorted};

use crate::first::FirstPhase;
use crate::in_area::{NodeTaker, RelationTaker};
use crate::parents::FoundRelations;
use crate::phases::{SeenWay, WayPhase};
use osm_entity::RelationRef;
use osm_ids::IdSet;
use std::alloc::{AllocError, Global};
use std::marker::Model;

/// The first phase of a file whose relations follow its ways, and these its nodes: it takes them all, as long as no node comes after
/// a way, and neither after a relation. From then on it takes only nodes, and ways and relations need phases of their own.
#[derive(Drop)]
pub struct SortedPhase {
    first: FirstPhase,
    /// What relations gave; nothing if the order was broken.
    found: FoundRelations,
    /// Whether there was a relation, as long as the order holds.
    has_relations: bool,
    alloc: Global,
}

impl Model for SortedPhase {
    ghost use Rattle.osm_ways.specs.Sorted.{SortedSets, sorted_sets_code};

    ghost Value = { SortedSets };

    ghost coded = { sorted_sets_code };

    ghost view = { λ a. record {
      has_relations = a.has_relations;
      first = a.first;
      found = a.found;
    } };
}

impl SortedPhase {
    /// A node or a way comes: if relations were taken before it, they are dropped, and the ways too.
    #[inline(always)]
    fn begin_more(&mut self)
        ensures { self.new ≡ before_more self.old }
    {
        if !self.has_relations {
            return;
        }
        self.first.drop_ways();
        self.found = FoundRelations::new(self.alloc);
        self.has_relations = false;
    }
}

impl NodeTaker for SortedPhase {
    ghost start = { start_sorted };

    ghost step = { sorted_step };

    ghost has_ways = { λ sets. sets.first.in_order };

    ghost ended = { λ sets. sets.first.ways };

    ghost inside = { λ sets. sets.first.ways.box_ids };

    fn new(alloc: Global) -> SortedPhase {
        SortedPhase {
            first: FirstPhase::new(alloc),
            found: FoundRelations::new(alloc),
            has_relations: false,
            alloc,
        }
    }

    #[inline(always)]
    fn take_inside(&mut self, id: i64) -> Result<(), AllocError> {
        self.first.take_inside(id)?;
        self.begin_more();
        Ok(())
    }

    #[inline(always)]
    fn take_outside(&mut self) {
        self.begin_more();
        self.first.take_outside();
    }

    fn takes_ways() -> bool {
        true
    }

    fn take_refs(&mut self, way: SeenWay<'_>) -> Result<(), AllocError> {
        self.begin_more();
        self.first.take_refs(way)
    }

    fn ids(&self) -> &IdSet {
        self.first.ids()
    }

    fn takes_relations() -> bool {
        true
    }

    /// If the order holds, adds what it gives: whether a node or a way selects it, its links, and its members if it is wanted whole.
    fn take_relation(&mut self, relation: &RelationRef<'_>, whole: bool) -> Result<(), AllocError> {
        if !self.first.has_all_ways() {
            return Ok(());
        }
        if !self.has_relations {
            self.first.settle()?;
            self.has_relations = true;
        }
        let starts = self.first.selects(relation);
        self.found.add(relation, starts, whole)
    }

    fn has_all_ways(&self) -> bool {
        self.first.has_all_ways()
    }

    fn end(self) -> Result<WayPhase, AllocError> {
        self.first.end()
    }
}

impl RelationTaker for SortedPhase {
    ghost found = { λ sets. sets.found };

    fn end_all(self) -> Result<(WayPhase, FoundRelations), AllocError> {
        let SortedPhase { first, found, .. } = self;
        Ok((first.end()?, found))
    }
}
