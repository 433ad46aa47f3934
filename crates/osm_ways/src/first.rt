//! The phase of nodes that takes ways too, as long as no node comes after one. What it does for a node is inlined into the loop over nodes.

ghost use Rattle.std.specs.Prelude.{◌≡◌, map};
ghost use Rattle.osm_entity.specs.Views.{relation_of};
ghost use Rattle.osm_ways.specs.First.{start_first, before_node, first_step};
ghost use Rattle.osm_ways.specs.Phases.{is_start, sets_of};
ghost use Rattle.osm_ways.specs.Seen.{seen_member};
ghost use Rattle.osm_ways.specs.Sorted.{without_ways};

use crate::in_area::NodeTaker;
use crate::phases::{SeenWay, WayPhase, add_refs_of, sealed};
use osm_entity::{MemberKind, RelationRef};
use osm_ids::{IdLookup, IdSet, Window};
use std::alloc::{AllocError, Global};
use std::marker::Model;

/// The first phase of a file whose ways mostly follow its nodes: it takes nodes, and ways as long as no node comes after one. From
/// then on it takes only nodes, and the ways need a phase of their own.
#[derive(Drop)]
pub struct FirstPhase {
    box_ids: IdSet,
    /// What look-ups among them learnt, as long as ways are taken.
    window: Window,
    /// The refs of kept ways that aren't nodes of the area; none if the order was broken.
    refs: IdSet,
    /// The ids of kept ways; none if the order was broken.
    way_ids: IdSet,
    /// Whether there was a way.
    has_ways: bool,
    /// Whether no node came after a way.
    in_order: bool,
    alloc: Global,
}

impl Model for FirstPhase {
    ghost use Rattle.osm_ways.specs.First.{FirstSets, IsWayless, first_sets_code};
    ghost use Rattle.osm_ways.specs.Phases.{sets_of};
    ghost use Rattle.osm_ids.specs.Windows.{IsOf};
    ghost use Rattle.std.specs.Prelude.{◌≡◌, ◌&&◌, true};

    ghost Value = { FirstSets };

    ghost coded = { first_sets_code };

    ghost view = { λ a. record {
      has_ways = a.has_ways;
      in_order = a.in_order;
      ways = sets_of a.box_ids a.refs a.way_ids;
    } };

    ghost invariant = { λ a. IsWayless a.has_ways a.in_order a.refs a.way_ids
        × ((a.has_ways && a.in_order) ≡ true → IsOf a.box_ids a.window) };
}

impl FirstPhase {
    /// A node comes, wherever it lies: the ways that were taken before it are dropped.
    #[inline(always)]
    fn begin_node(&mut self)
        ensures { self.new ≡ before_node self.old }
    {
        if !self.has_ways {
            return;
        }
        if !self.in_order {
            return;
        }
        self.drop_ways();
    }

    /// From here on only nodes are taken. The ways are dropped.
    pub(crate) fn drop_ways(&mut self)
        ensures { self.new ≡ without_ways self.old }
    {
        self.refs = IdSet::new(self.alloc);
        self.way_ids = IdSet::new(self.alloc);
        self.in_order = false;
    }

    /// All ids are looked up alike from here on. The sets stay the same.
    pub(crate) fn settle(&mut self) -> Result<(), AllocError>
        ensures { self.new ≡ self.old }
    {
        self.box_ids.settle()?;
        self.refs.settle()?;
        self.way_ids.settle()
    }

    /// Whether a node or a way among its members selects the relation.
    pub(crate) fn selects(&self, relation: &RelationRef<'_>) -> bool
        ensures { result
            ≡ is_start self.now.ways (map seen_member (relation_of relation.now).members) }
    {
        is_selected(&self.box_ids, &self.refs, &self.way_ids, relation)
    }
}

/// Whether a node among the area's or the refs, or a way, selects the relation.
fn is_selected(box_ids: &IdSet, refs: &IdSet, way_ids: &IdSet, relation: &RelationRef<'_>) -> bool
    ensures { result ≡ is_start (sets_of box_ids.now refs.now way_ids.now)
        (map seen_member (relation_of relation.now).members) }
{
    let mut in_box = Window::new();
    let mut in_refs = Window::new();
    let mut in_ways = Window::new();
    for member in relation.members() {
        let is_selecting = match member.kind {
            MemberKind::Node => {
                box_ids.has_near(&mut in_box, member.id) || refs.has_near(&mut in_refs, member.id)
            }
            MemberKind::Way => way_ids.has_near(&mut in_ways, member.id),
            MemberKind::Relation => false,
        };
        if is_selecting {
            return true;
        }
    }
    false
}

impl NodeTaker for FirstPhase {
    ghost start = { start_first };

    ghost step = { first_step };

    ghost has_ways = { λ sets. sets.in_order };

    ghost ended = { λ sets. sets.ways };

    ghost inside = { λ sets. sets.ways.box_ids };

    fn new(alloc: Global) -> FirstPhase {
        FirstPhase {
            box_ids: IdSet::new(alloc),
            window: Window::new(),
            refs: IdSet::new(alloc),
            way_ids: IdSet::new(alloc),
            has_ways: false,
            in_order: true,
            alloc,
        }
    }

    #[inline(always)]
    fn take_inside(&mut self, id: i64) -> Result<(), AllocError> {
        self.box_ids.add(id)?;
        if self.has_ways && self.in_order {
            // What is known of the other ids isn't known of this one.
            self.window = Window::new();
        }
        self.begin_node();
        Ok(())
    }

    #[inline(always)]
    fn take_outside(&mut self) {
        self.begin_node();
    }

    fn takes_ways() -> bool {
        true
    }

    /// If no node came after a way, adds a way with a ref among the area's nodes: its id and all its refs.
    fn take_refs(&mut self, way: SeenWay<'_>) -> Result<(), AllocError> {
        if !self.has_ways {
            // From here on the nodes are looked up.
            self.box_ids.settle()?;
            self.window = Window::new();
            self.has_ways = true;
        }
        if !self.in_order {
            return Ok(());
        }
        let is_kept = add_refs_of(&self.box_ids, &mut self.window, &mut self.refs, way.refs)?;
        if is_kept {
            self.way_ids.add(way.id)?;
        }
        Ok(())
    }

    fn ids(&self) -> &IdSet {
        &self.box_ids
    }

    fn takes_relations() -> bool {
        false
    }

    fn take_relation(
        &mut self,
        _relation: &RelationRef<'_>,
        _whole: bool,
    ) -> Result<(), AllocError> {
        Ok(())
    }

    fn has_all_ways(&self) -> bool {
        self.in_order
    }

    fn end(self) -> Result<WayPhase, AllocError> {
        let FirstPhase {
            box_ids,
            refs,
            way_ids,
            alloc,
            ..
        } = self;
        Ok(WayPhase {
            box_ids: sealed(box_ids)?,
            window: Window::new(),
            refs,
            way_ids,
            alloc,
        })
    }
}
