//! Phases that take nodes, and the area in which these have to lie. To take a place is inlined into the loop over nodes.

ghost use Rattle.std.specs.Prelude.{◌≡◌, Bool, ℤ, false, true, IfOk, OnOk};
ghost use Rattle.osm_entity.specs.Views.{node_of, relation_of};
ghost use Rattle.osm_ways.specs.InArea.{stepped};
ghost use Rattle.osm_ways.specs.Phases.{Found, Ids, LeavesOutWays, PassesOver, TakesAll, TakesFirst, TakesNode, TakesRelations, TakesWays, WaySets};
ghost use Rattle.osm_ways.specs.Seen.{seen_as, seen_node, seen_refs};
ghost use Rattle.osm_ways.specs.Selection.{Seen, a_node, none_whole};
ghost use Rattle.osm_ways.specs.Whole.{is_wanted};

use crate::parents::FoundRelations;
use crate::phases::{NodeIds, SeenWay, WayPhase};
use crate::whole::WholeTypes;
use osm_area::Area;
use osm_entity::{BoundingBox, NodeRef, RelationRef};
use osm_ids::IdSet;
use std::alloc::{AllocError, Global};

/// The first phase, which takes nodes, and maybe ways and relations. It takes ids, and knows of no area.
pub trait NodeTaker {
    /// What it is before any entity.
    ghost start: { Self };

    /// What it is after an entity, by what the selection sees of that.
    ghost step: { Self → Seen → Self };

    /// Whether it has all ways too.
    ghost has_ways: { Self → Bool };

    /// What the phase of ways begins with.
    ghost ended: { Self → WaySets };

    /// The ids of the nodes that lie in the area.
    ghost inside: { Self → Ids };

    /// No entities yet. It allocates nothing yet.
    fn new(alloc: Global) -> Self
        ensures new { result ≡ start }
        ensures takes { TakesFirst start step has_ways ended };

    /// Takes a node that lies in the area.
    ///
    /// # Errors
    ///
    /// If memory is refused, the phase is as it was.
    fn take_inside(&mut self, id: i64) -> Result<(), AllocError>
        ensures { TakesNode step (a_node id true) self.old self.new result };

    /// Takes a node that does not, whatever its id: such a node before or after another one changes nothing.
    fn take_outside(&mut self)
        ensures taken { (id : ℤ) → self.new ≡ step self.old (a_node id false) }
        ensures alike { PassesOver step };

    /// Whether it takes ways.
    fn takes_ways() -> bool
        ensures { TakesWays result step };

    /// Takes a way. Then a way without a ref to a node in the area changes nothing, until a node or a relation is taken.
    ///
    /// # Errors
    ///
    /// If memory is refused, the phase may only be dropped.
    fn take_refs(&mut self, way: SeenWay<'_>) -> Result<(), AllocError>
        ensures taken { OnOk result (self.new ≡ step self.old (seen_refs way.entry)) }
        ensures begun { OnOk result (LeavesOutWays step inside self.new) }
        ensures inside { OnOk result (inside self.new ≡ inside self.old) };

    /// The ids of the nodes that lie in the area.
    fn ids(&self) -> &IdSet
        ensures { result.now ≡ inside self.now };

    /// Whether it takes relations.
    fn takes_relations() -> bool
        ensures { TakesRelations result step };

    /// Takes a relation, which may be wanted whole.
    ///
    /// # Errors
    ///
    /// If memory is refused, the phase may only be dropped.
    fn take_relation(&mut self, relation: &RelationRef<'_>, whole: bool) -> Result<(), AllocError>
        ensures { OnOk result
            (self.new ≡ step self.old (seen_as whole (relation_of relation.now))) };

    /// Whether all ways were taken too. Otherwise the phase of ways takes them.
    fn has_all_ways(&self) -> bool
        ensures { result ≡ has_ways self.now };

    /// All entities are taken, and the phase of ways follows.
    ///
    /// # Errors
    ///
    /// If memory is refused, the phase is gone.
    fn end(self) -> Result<WayPhase, AllocError>
        ensures { IfOk result (λ phase. phase ≡ ended self) };
}

/// A first phase that has all relations too if it has all ways, and otherwise none.
pub trait RelationTaker: NodeTaker {
    /// What relations gave.
    ghost found: { Self → Found };

    /// All entities are taken: the phase of ways follows, and what relations gave is for that of relations.
    ///
    /// # Errors
    ///
    /// If memory is refused, the phase is gone.
    fn end_all(self) -> Result<(WayPhase, FoundRelations), AllocError>
        ensures ways { IfOk result (λ both. both.0 ≡ Self.ended self) }
        ensures found { IfOk result (λ both. both.1 ≡ found self) }
        ensures takes { TakesAll Self.start Self.step Self.has_ways Self.ended found };
}

/// A phase, the area in which the nodes that it takes have to lie, and the types of relations that are wanted whole.
#[derive(Drop)]
pub struct InArea<A, P> {
    pub area: A,
    pub types: WholeTypes,
    pub phase: P,
}

/// The first phase, which takes nodes: the box, and the ids of its nodes.
pub type NodePhase = InArea<BoundingBox, NodeIds>;

impl<A: Area, P: NodeTaker> InArea<A, P> {
    /// The phase of an area, with no entities yet; no relation is wanted whole. It allocates nothing yet.
    pub fn new(alloc: Global, area: A) -> InArea<A, P>
        ensures area { result.area ≡ area }
        ensures types { is_wanted result.types ≡ none_whole }
        ensures start { result.phase ≡ P.start }
        ensures takes { TakesFirst P.start P.step P.has_ways P.ended }
    {
        InArea::wanting(alloc, area, WholeTypes::none(alloc))
    }

    /// The same with relations of these types wanted whole.
    pub fn wanting(alloc: Global, area: A, types: WholeTypes) -> InArea<A, P>
        ensures area { result.area ≡ area }
        ensures types { result.types ≡ types }
        ensures start { result.phase ≡ P.start }
        ensures takes { TakesFirst P.start P.step P.has_ways P.ended }
    {
        InArea {
            area,
            types,
            phase: P::new(alloc),
        }
    }

    /// All nodes are taken: those in the area are kept, and the ways follow.
    ///
    /// # Errors
    ///
    /// If memory is refused, the phase is gone.
    pub fn end_nodes(self) -> Result<WayPhase, AllocError>
    where
        A: Drop,
        ensures { IfOk result (λ phase. phase ≡ P.ended self.phase) }
    {
        self.phase.end()
    }

    /// All entities are taken: what nodes and ways gave, and what relations did.
    ///
    /// # Errors
    ///
    /// If memory is refused, the phase is gone.
    pub fn end_all(self) -> Result<(WayPhase, FoundRelations), AllocError>
    where
        A: Drop,
        P: RelationTaker,
        ensures ways { IfOk result (λ both. both.0 ≡ P.ended self.phase) }
        ensures found { IfOk result (λ both. both.1 ≡ P.found self.phase) }
        ensures takes { TakesAll P.start P.step P.has_ways P.ended P.found }
    {
        self.phase.end_all()
    }

    /// Takes a relation, and whether it is wanted whole.
    ///
    /// # Errors
    ///
    /// If memory is refused, the phase may only be dropped.
    pub fn take_relation(&mut self, relation: &RelationRef<'_>) -> Result<(), AllocError>
        ensures { OnOk result (self.new ≡ stepped P.step self.old
            (seen_as (is_wanted self.old.types (relation_of relation.now).tags)
            (relation_of relation.now))) }
    {
        let whole = self.types.want(relation.tags());
        self.phase.take_relation(relation, whole)
    }

    /// Takes a node. Of those that do not lie in the area the phase learns only that there are some.
    ///
    /// # Errors
    ///
    /// If memory is refused, the phase is as it was.
    pub fn take_node(&mut self, node: &NodeRef<'_>) -> Result<(), AllocError>
        ensures { TakesNode (stepped P.step) (seen_node (A.area self.old.area) (node_of node.now))
            self.old self.new result }
    {
        self.take_place(node.id(), node.nano_lat(), node.nano_lon())
    }

    /// The same of a node by its id and its place in nanodegrees, which is all that counts of it.
    ///
    /// # Errors
    ///
    /// If memory is refused, the phase is as it was.
    #[inline(always)]
    pub fn take_place(&mut self, id: i64, lat: i128, lon: i128) -> Result<(), AllocError>
        ensures { TakesNode (stepped P.step) (a_node id ((A.area self.old.area).has lat lon))
            self.old self.new result }
    {
        if self.area.contains(lat, lon) {
            return self.phase.take_inside(id);
        }
        self.phase.take_outside();
        Ok(())
    }
}
