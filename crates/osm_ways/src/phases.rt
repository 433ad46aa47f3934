//! The phases of a selection, each of its own type: first all nodes are taken, then all ways, then the entities are chosen.

ghost use Rattle.std.specs.Prelude.{◌≡◌, false, true, IfOk, OnOk};
ghost use Rattle.std.specs.List.{fold};
ghost use Rattle.std.specs.FinSet as set;
ghost use Rattle.osm_entity.specs.Sources.{refs_left};
ghost use Rattle.osm_entity.specs.Views.{way_of};
ghost use Rattle.osm_ids.specs.Windows.{IsOf};
ghost use Rattle.osm_ways.specs.Selection.{is_kept_way};
ghost use Rattle.osm_ways.specs.Seen.{seen_way, seen_refs};
ghost use Rattle.osm_ways.specs.Phases.{node_step, nothing_found, start_ways, way_step, refs_if, without_parents};

use crate::in_area::{NodeTaker, RelationTaker};
use crate::members::SealedAdded;
use crate::parents::FoundRelations;
use osm_entity::{Refs, RelationRef, WayRef};
use osm_ids::{IdLookup, IdSet, SealedIds, Window};
use std::alloc::{AllocError, Global};
use std::marker::Model;

/// The first phase, which takes the ids of the nodes that lie in an area.
#[derive(Drop)]
pub struct NodeIds {
    box_ids: IdSet,
    alloc: Global,
}

impl Model for NodeIds {
    ghost use Rattle.osm_ways.specs.Phases.{Ids, ids_code};

    ghost Value = { Ids };

    ghost coded = { ids_code };

    ghost view = { λ a. a.box_ids };
}

impl NodeTaker for NodeIds {
    ghost start = { set.empty };

    ghost step = { node_step };

    ghost has_ways = { λ _. false };

    ghost ended = { start_ways };

    ghost inside = { λ ids. ids };

    fn new(alloc: Global) -> NodeIds {
        NodeIds {
            box_ids: IdSet::new(alloc),
            alloc,
        }
    }

    fn take_inside(&mut self, id: i64) -> Result<(), AllocError> {
        self.box_ids.add(id)?;
        Ok(())
    }

    fn take_outside(&mut self) {}

    fn takes_ways() -> bool {
        false
    }

    fn take_refs(&mut self, _way: SeenWay<'_>) -> Result<(), AllocError> {
        Ok(())
    }

    fn ids(&self) -> &IdSet {
        &self.box_ids
    }

    fn takes_relations() -> bool {
        false
    }

    fn take_relation(
        &mut self,
        _relation: &RelationRef<'_>,
        _whole: bool,
    ) -> Result<(), AllocError> {
        Ok(())
    }

    fn has_all_ways(&self) -> bool {
        false
    }

    fn end(self) -> Result<WayPhase, AllocError> {
        let NodeIds { box_ids, alloc } = self;
        Ok(WayPhase {
            box_ids: sealed(box_ids)?,
            window: Window::new(),
            refs: IdSet::new(alloc),
            way_ids: IdSet::new(alloc),
            alloc,
        })
    }
}

impl RelationTaker for NodeIds {
    ghost found = { λ _. nothing_found };

    fn end_all(self) -> Result<(WayPhase, FoundRelations), AllocError> {
        let found = FoundRelations::new(self.alloc);
        Ok((self.end()?, found))
    }
}

/// The second phase, which takes ways: the ids of the box's nodes, of all nodes that are kept, and of the ways that are kept.
#[derive(Drop)]
pub struct WayPhase {
    pub(crate) box_ids: SealedIds,
    /// What look-ups among them learnt.
    pub(crate) window: Window,
    /// The refs of kept ways that aren't nodes of the box.
    pub(crate) refs: IdSet,
    pub(crate) way_ids: IdSet,
    pub(crate) alloc: Global,
}

impl Model for WayPhase {
    ghost use Rattle.osm_ways.specs.Phases.{WaySets, way_sets_code, sets_of};
    ghost use Rattle.osm_ids.specs.Windows.{IsOf};

    ghost Value = { WaySets };

    ghost coded = { way_sets_code };

    ghost view = { λ a. sets_of a.box_ids a.refs a.way_ids };

    ghost invariant = { λ a. IsOf a.box_ids a.window };
}

impl WayPhase {
    /// Adds a way with a ref among the box's nodes: its id, and all its refs, of which those that are there take no room.
    /// Another way changes nothing.
    ///
    /// # Errors
    ///
    /// If memory is refused, the phase may have refs of the way, but not its id. It may only be dropped.
    pub fn take_way(&mut self, way: &WayRef<'_>) -> Result<(), AllocError>
        ensures { OnOk result (self.new ≡ way_step self.old (seen_way (way_of way.now))) }
    {
        self.take_refs(SeenWay::of(way))
    }

    /// The same of a way by its id and its refs, which are all that counts of it.
    ///
    /// # Errors
    ///
    /// If memory is refused, the phase may only be dropped, as there.
    pub fn take_refs(&mut self, way: SeenWay<'_>) -> Result<(), AllocError>
        ensures { OnOk result (self.new ≡ way_step self.old (seen_refs way.entry)) }
    {
        let is_kept = add_refs_of(&self.box_ids, &mut self.window, &mut self.refs, way.refs)?;
        if is_kept {
            self.way_ids.add(way.id)?;
        }
        Ok(())
    }

    /// All ways are taken: returns what was chosen, without parents.
    ///
    /// # Errors
    ///
    /// If memory is refused, the phase is gone.
    pub fn end_ways(self) -> Result<Chosen, AllocError>
        ensures { IfOk result (λ chosen. chosen ≡ without_parents self) }
    {
        let WayPhase {
            box_ids,
            refs,
            way_ids,
            alloc,
            ..
        } = self;
        let refs = sealed(refs)?;
        let way_ids = sealed(way_ids)?;
        Ok(Chosen {
            box_ids,
            refs,
            way_ids,
            relation_ids: None,
            added: None,
            alloc,
        })
    }
}

/// The sealed set, or only the refusal.
pub(crate) fn sealed(ids: IdSet) -> Result<SealedIds, AllocError>
    ensures { IfOk result (λ sealed. sealed ≡ ids) }
{
    match ids.seal() {
        Ok(sealed) => Ok(sealed),
        Err((_, error)) => Err(error),
    }
}

/// What counts of a way: its id and its refs.
#[derive(Clone, Copy)]
pub struct SeenWay<'a> {
    pub id: i64,
    pub refs: Refs<'a>,
}

impl<'a> SeenWay<'a> {
    /// What the selection sees of a way: its id and its refs.
    pub fn of(way: &WayRef<'a>) -> SeenWay<'a>
        ensures { seen_refs result ≡ seen_way (way_of way.now) }
    {
        SeenWay {
            id: way.id(),
            refs: way.refs(),
        }
    }
}

/// Whether one of these refs is among the ids.
pub(crate) fn is_kept_by<I: IdLookup>(ids: &I, window: &mut Window, refs: Refs<'_>) -> bool
    requires { IsOf (I.ids ids.now) window.old }
    ensures kept { result ≡ is_kept_way (set.contains (I.ids ids.now)) (refs_left refs.entry) }
    ensures of { IsOf (I.ids ids.now) window.new }
{
    let mut rest = refs;
    'refs: while let Some(id) = rest.next() {
        if ids.has_near(window, id) {
            return true;
        }
        // Refs near an absent one are mostly absent too: they needn't be looked up.
        rest.pass_inside(window.absent());
    }
    false
}

/// Adds all of these refs that aren't known to the ids.
fn add_refs<I: IdLookup>(
    known: &I,
    window: &mut Window,
    ids: &mut IdSet,
    refs: Refs<'_>,
) -> Result<(), AllocError>
    requires { IsOf (I.ids known.now) window.old }
    ensures sets { OnOk result (set.union (I.ids known.now) ids.new
        ≡ fold set.insert (set.union (I.ids known.now) ids.old) (refs_left refs.entry)) }
    ensures of { IsOf (I.ids known.now) window.new }
{
    for id in refs {
        if known.has_near(window, id) {
            continue;
        }
        ids.add(id)?;
    }
    Ok(())
}

/// Whether a way with these refs is kept, since one of them is among the box's nodes. Then all its refs are added, of which those that
/// are known take no room.
pub(crate) fn add_refs_of<I: IdLookup>(
    known: &I,
    window: &mut Window,
    ids: &mut IdSet,
    refs: Refs<'_>,
) -> Result<bool, AllocError>
    requires { IsOf (I.ids known.now) window.old }
    ensures kept { IfOk result
        (λ kept. kept ≡ is_kept_way (set.contains (I.ids known.now)) (refs_left refs.entry)) }
    ensures sets { IfOk result (λ kept. set.union (I.ids known.now) ids.new
        ≡ refs_if kept (set.union (I.ids known.now) ids.old) (refs_left refs.entry)) }
    ensures of { IsOf (I.ids known.now) window.new }
{
    // Of most kept ways the first ref is known: then no ref is read twice.
    let mut rest = refs;
    let Some(first) = rest.next() else {
        return Ok(false);
    };
    if !known.has_near(window, first) {
        if !is_kept_by(known, window, rest) {
            return Ok(false);
        }
        ids.add(first)?;
    }
    add_refs(known, window, ids, rest)?;
    Ok(true)
}

/// What was chosen: the ids of the box's nodes, of all nodes that are kept, and of the ways that are kept; if all parents are
/// kept, of all relations that are; and if relations are wanted whole, what is added for their sake.
#[derive(Drop)]
pub struct Chosen {
    pub(crate) box_ids: SealedIds,
    /// The refs of kept ways that aren't nodes of the box.
    pub(crate) refs: SealedIds,
    pub(crate) way_ids: SealedIds,
    /// Those of all parents, if they were chosen too.
    pub(crate) relation_ids: Option<SealedIds>,
    /// What was added for relations that are wanted whole; `None` if none were.
    pub(crate) added: Option<SealedAdded>,
    pub(crate) alloc: Global,
}

impl Model for Chosen {
    ghost use Rattle.osm_ways.specs.Added.{added_or_none};
    ghost use Rattle.osm_ways.specs.Phases.{KeptSets, kept_sets_code, sets_of, ids_or_none};

    ghost Value = { KeptSets };

    ghost coded = { kept_sets_code };

    ghost view = { λ a. record {
      ways = sets_of a.box_ids a.refs a.way_ids;
      relation_ids = ids_or_none a.relation_ids;
      added = added_or_none a.added;
    } };
}
