//! Which entities are kept, for many of them one after another.

ghost use Rattle.std.specs.Prelude.{◌≡◌, ℤ, true, false};
ghost use Rattle.std.specs.FinSet as set;
ghost use Rattle.osm_entity.specs.Sources.{lent_member, refs_left};
ghost use Rattle.osm_entity.specs.Views.{way_of, relation_of};
ghost use Rattle.osm_ids.specs.Windows.{HasAll, Lacks};
ghost use Rattle.pbf_wire.specs.Spans.{is_in};
ghost use Rattle.osm_ids.specs.Looking.{LooksUp};
ghost use Rattle.osm_ways.specs.Selection.{is_kept_way, is_selecting};
ghost use Rattle.osm_ways.specs.Seen.{seen_way, seen_refs, seen_member, seen_relation};
ghost use Rattle.osm_ways.specs.Added.{added_or_none};
ghost use Rattle.osm_ways.specs.Phases.{ids_or_none, is_chosen, is_taken, keeps_id};

use crate::members::SealedAdded;
use crate::parents::ChosenParents;
use crate::phases::{Chosen, SeenWay, is_kept_by};
use osm_entity::{MemberKind, MemberRef, Refs, RelationRef, WayRef};
use osm_ids::{SealedIds, Window};
use pbf_wire::Span;
use std::marker::Model;

/// A set, and what look-ups in it learnt. Contracts see it as the set.
#[derive(Drop)]
struct Near<'a> {
    ids: &'a SealedIds,
    window: Window,
}

impl<'a> Model for Near<'a> {
    ghost use Rattle.osm_ids.specs.Windows.{IsOf};
    ghost use Rattle.osm_ways.specs.Phases.{Ids, ids_code};

    ghost Value = { Ids };

    ghost coded = { ids_code };

    ghost view = { λ a. a.ids.now };

    ghost invariant = { λ a. IsOf a.ids.now a.window };
}

impl<'a> Near<'a> {
    /// Nothing is learnt yet.
    fn new(ids: &'a SealedIds) -> Near<'a>
        ensures { result ≡ ids.now }
    {
        Near {
            ids,
            window: Window::new(),
        }
    }

    /// Whether the set has the id.
    fn has(&mut self, id: i64) -> bool
        ensures { LooksUp (set.contains self.old id) self.old self.new result }
    {
        self.window.has(self.ids, id)
    }

    /// Whether the set has one of these refs.
    fn has_any(&mut self, refs: Refs<'_>) -> bool
        ensures { LooksUp (is_kept_way (set.contains self.old) (refs_left refs.entry))
            self.old self.new result }
    {
        is_kept_by(self.ids, &mut self.window, refs)
    }

    /// Ids that the set lacks, as far as the last look-up showed.
    fn absent(&self) -> Span
        ensures { Lacks self.now result }
    {
        self.window.absent()
    }

    /// Ids that the set has, all of them, as far as the last look-up showed.
    fn present(&self) -> Span
        ensures { HasAll self.now result }
    {
        self.window.present()
    }
}

/// What was added for relations that are wanted whole, and what look-ups in it learnt.
#[derive(Drop)]
struct NearAdded<'a> {
    nodes: Near<'a>,
    ways: Near<'a>,
}

impl<'a> Model for NearAdded<'a> {
    ghost use Rattle.osm_ways.specs.Added.{AddedSets, added_code};

    ghost Value = { AddedSets };

    ghost coded = { added_code };

    ghost view = { λ a. record { nodes = a.nodes; ways = a.ways } };
}

impl<'a> NearAdded<'a> {
    /// Nothing is learnt yet.
    fn new(added: &'a SealedAdded) -> NearAdded<'a>
        ensures { result ≡ added.now }
    {
        NearAdded {
            nodes: Near::new(&added.nodes),
            ways: Near::new(&added.ways),
        }
    }
}

/// Whether a node was added.
fn adds_node(added: &mut Option<NearAdded<'_>>, id: i64) -> bool
    ensures { LooksUp (set.contains (added_or_none added.old).nodes id) added.old added.new result }
{
    match added {
        Some(added) => added.nodes.has(id),
        None => false,
    }
}

/// Whether a way was added.
fn adds_way(added: &mut Option<NearAdded<'_>>, id: i64) -> bool
    ensures { LooksUp (set.contains (added_or_none added.old).ways id) added.old added.new result }
{
    match added {
        Some(added) => added.ways.has(id),
        None => false,
    }
}

/// What was chosen, to test many entities one after another: each look-up begins where the last one ended, so ids that
/// lie close together are cheap. It does not allocate.
#[derive(Drop)]
pub struct Chooser<'a> {
    box_ids: Near<'a>,
    refs: Near<'a>,
    way_ids: Near<'a>,
    /// Those of all parents, if they were chosen too.
    relation_ids: Option<Near<'a>>,
    /// What was added for relations that are wanted whole; `None` if none were.
    added: Option<NearAdded<'a>>,
}

impl<'a> Model for Chooser<'a> {
    ghost use Rattle.std.specs.FinSet as set;
    ghost use Rattle.osm_ways.specs.Added.{added_or_none};
    ghost use Rattle.osm_ways.specs.Phases.{KeptSets, kept_sets_code, ids_or_none};

    ghost Value = { KeptSets };

    ghost coded = { kept_sets_code };

    ghost view = { λ a. record {
      ways = record {
        box_ids = a.box_ids;
        node_ids = set.union a.box_ids a.refs;
        way_ids = a.way_ids;
      };
      relation_ids = ids_or_none a.relation_ids;
      added = added_or_none a.added;
    } };
}

/// Whether an id is among those of all parents, if they were chosen.
fn has(ids: &mut Option<Near<'_>>, id: i64) -> bool
    ensures { LooksUp (set.contains (ids_or_none ids.old) id) ids.old ids.new result }
{
    match ids {
        Some(ids) => ids.has(id),
        None => false,
    }
}

impl<'a> Chooser<'a> {
    /// Whether nodes of this id are kept: it is that of a node in the box, a ref of a kept way, or that of one that was added. The choice
    /// stays the same.
    pub fn keeps_node(&mut self, id: i64) -> bool
        ensures { LooksUp (keeps_id self.old id) self.old self.new result }
    {
        self.selects_by_node(id) || adds_node(&mut self.added, id)
    }

    /// Whether a node of this id selects relations: it is that of a node in the box, or a ref of a way with such a node.
    fn selects_by_node(&mut self, id: i64) -> bool
        ensures { LooksUp (set.contains self.old.ways.node_ids id) self.old self.new result }
    {
        self.box_ids.has(id) || self.refs.has(id)
    }

    /// Ids of which no node is kept, as far as the last look-ups showed: none if they showed nothing.
    pub fn absent(&self) -> Span
        ensures { (id : ℤ) → is_in result id ≡ true → keeps_id self.now id ≡ false }
    {
        let span = self.box_ids.absent().common(self.refs.absent());
        match &self.added {
            Some(added) => span.common(added.nodes.absent()),
            None => span,
        }
    }

    /// Ids of which all nodes are kept, as far as the last look-up of the ids in the box showed: none if it showed nothing.
    pub fn present(&self) -> Span
        ensures { (id : ℤ) → is_in result id ≡ true → keeps_id self.now id ≡ true }
    {
        self.box_ids.present()
    }

    /// Whether the way is kept: one of its refs is a node in the box, or it was added. Of two ways of one id each is judged by itself.
    pub fn keeps_way(&mut self, way: &WayRef<'_>) -> bool
        ensures { LooksUp (is_chosen self.old (seen_way (way_of way.now)))
            self.old self.new result }
    {
        self.keeps_seen(SeenWay::of(way))
    }

    /// The same of a way by its id and its refs, which are all that counts of it.
    pub fn keeps_seen(&mut self, way: SeenWay<'_>) -> bool
        ensures { LooksUp (is_chosen self.old (seen_refs way.entry)) self.old self.new result }
    {
        self.keeps_refs(way.refs) || adds_way(&mut self.added, way.id)
    }

    /// Whether one of these refs is a node in the box.
    fn keeps_refs(&mut self, refs: Refs<'_>) -> bool
        ensures { LooksUp (is_kept_way (set.contains self.old.ways.box_ids) (refs_left refs.entry))
            self.old self.new result }
    {
        self.box_ids.has_any(refs)
    }

    /// Whether the way is kept, in the file that the choice was made from: by its id first, so that of a way whose id was neither chosen
    /// nor added no ref is looked up. Of two ways of one id each is judged by itself.
    pub fn takes_way(&mut self, way: SeenWay<'_>) -> bool
        ensures { LooksUp (is_taken self.old (seen_refs way.entry)) self.old self.new result }
    {
        (self.way_ids.has(way.id) && self.keeps_refs(way.refs)) || adds_way(&mut self.added, way.id)
    }

    /// Whether the relation is kept: a node or a way among its members is, or a relation, with all parents. Of two relations of one
    /// id each is judged by itself.
    pub fn keeps_relation(&mut self, relation: &RelationRef<'_>) -> bool
        ensures { LooksUp (is_chosen self.old (seen_relation (relation_of relation.now)))
            self.old self.new result }
    {
        for member in relation.members() {
            if self.selects(&member) {
                return true;
            }
        }
        false
    }

    /// Whether the member selects its relation.
    fn selects(&mut self, member: &MemberRef<'_>) -> bool
        ensures { LooksUp (is_selecting (set.contains self.old.ways.node_ids)
            (set.contains self.old.ways.way_ids) (set.contains self.old.relation_ids)
            (seen_member (lent_member member.now))) self.old self.new result }
    {
        match member.kind {
            MemberKind::Node => self.selects_by_node(member.id),
            MemberKind::Way => self.way_ids.has(member.id),
            MemberKind::Relation => has(&mut self.relation_ids, member.id),
        }
    }
}

impl Chosen {
    /// The same sets, to test many entities one after another.
    pub fn chooser(&self) -> Chooser<'_>
        ensures { result ≡ self.now }
    {
        let relation_ids = match &self.relation_ids {
            Some(ids) => Some(Near::new(ids)),
            None => None,
        };
        let added = match &self.added {
            Some(added) => Some(NearAdded::new(added)),
            None => None,
        };
        Chooser {
            box_ids: Near::new(&self.box_ids),
            refs: Near::new(&self.refs),
            way_ids: Near::new(&self.way_ids),
            relation_ids,
            added,
        }
    }

    /// How many ids there are of nodes, ways and relations, each as often as it was chosen or added; at most the greatest number. It has no
    /// contract: only speed and space may depend on it.
    pub fn count(&self) -> u64 {
        let mut count = self
            .box_ids
            .count()
            .saturating_add(self.refs.count())
            .saturating_add(self.way_ids.count());
        if let Some(ids) = &self.relation_ids {
            count = count.saturating_add(ids.count());
        }
        if let Some(added) = &self.added {
            count = count
                .saturating_add(added.nodes.count())
                .saturating_add(added.ways.count());
        }
        count
    }

    /// Whether nodes of this id are kept: it is that of a node in the box, a ref of a kept way, or that of one that was added. The choice
    /// stays the same.
    pub fn keeps_node(&self, id: i64) -> bool
        ensures { result ≡ keeps_id self.now id }
    {
        self.chooser().keeps_node(id)
    }

    /// Whether the way is kept: one of its refs is a node in the box, or it was added. Of two ways of one id each is judged by itself.
    pub fn keeps_way(&self, way: &WayRef<'_>) -> bool
        ensures { result ≡ is_chosen self.now (seen_way (way_of way.now)) }
    {
        self.chooser().keeps_way(way)
    }

    /// Whether the relation is kept: a node or a way among its members is, or a relation, with all parents. Of two relations of one
    /// id each is judged by itself.
    pub fn keeps_relation(&self, relation: &RelationRef<'_>) -> bool
        ensures { result ≡ is_chosen self.now (seen_relation (relation_of relation.now)) }
    {
        self.chooser().keeps_relation(relation)
    }
}

impl ChosenParents {
    /// The same as one choice.
    pub fn chosen(&self) -> &Chosen
        ensures { result.now ≡ self.now }
    {
        &self.chosen
    }

    /// The same, by value.
    pub fn into_chosen(self) -> Chosen
        ensures { result ≡ self }
    {
        self.chosen
    }

    /// Whether nodes of this id are kept, as without parents.
    pub fn keeps_node(&self, id: i64) -> bool
        ensures { result ≡ keeps_id self.now id }
    {
        self.chosen.keeps_node(id)
    }

    /// Whether the way is kept, as without parents.
    pub fn keeps_way(&self, way: &WayRef<'_>) -> bool
        ensures { result ≡ is_chosen self.now (seen_way (way_of way.now)) }
    {
        self.chosen.keeps_way(way)
    }

    /// Whether the relation is kept: a node, a way or a relation among its members is. Of two relations of one id each is
    /// judged by itself.
    pub fn keeps_relation(&self, relation: &RelationRef<'_>) -> bool
        ensures { result ≡ is_chosen self.now (seen_relation (relation_of relation.now)) }
    {
        self.chosen.keeps_relation(relation)
    }
}
