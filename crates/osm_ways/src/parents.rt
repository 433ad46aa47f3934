//! The phase of relations, if all parents of kept relations are kept too.

ghost use Rattle.std.specs.Prelude.{◌≡◌, map, IfOk, OnOk};
ghost use Rattle.std.specs.List.{fold};
ghost use Rattle.std.specs.FinSet as set;
ghost use Rattle.osm_ids.specs.Links.{IsLeast};
ghost use Rattle.osm_entity.specs.Sources.{members_left};
ghost use Rattle.osm_entity.specs.Views.{relation_of};
ghost use Rattle.osm_ways.specs.Added.{nothing_added};
ghost use Rattle.osm_ways.specs.Seen.{seen_as, seen_member, seen_relation};
ghost use Rattle.osm_ways.specs.Phases.{begun_members, found_if, is_start, nothing_found, relation_step, relations_from, start_relations, with_link};

use crate::members::{AddedIds, MemberPhase};
use crate::phases::{Chosen, WayPhase, sealed};
use osm_entity::{MemberKind, Members, RelationRef};
use osm_ids::{IdSet, Links, Window};
use std::alloc::{AllocError, Global};
use std::marker::Model;

impl Chosen {
    /// The phase that takes relations, with what was chosen and no relations yet. It allocates nothing yet.
    pub fn with_parents(self) -> RelationPhase
        ensures { result ≡ start_relations self.ways }
    {
        let found = FoundRelations::new(self.alloc);
        self.with_found(found)
    }

    /// The same with what relations gave in an earlier phase.
    fn with_found(self, found: FoundRelations) -> RelationPhase
        ensures { result ≡ relations_from self.ways found }
    {
        RelationPhase {
            chosen: Chosen {
                relation_ids: None,
                added: None,
                ..self
            },
            found,
        }
    }
}

impl WayPhase {
    /// All ways are taken: the phase that takes relations, with what they gave in an earlier phase.
    ///
    /// # Errors
    ///
    /// If memory is refused, both are gone.
    pub fn end_with(self, found: FoundRelations) -> Result<RelationPhase, AllocError>
        ensures { IfOk result (λ phase. phase ≡ relations_from self found) }
    {
        Ok(self.end_ways()?.with_found(found))
    }
}

/// What relations gave: the ids of those that nodes and ways select, a link from each relation member to its relation, and the members
/// that are added for those that are wanted whole.
#[derive(Drop)]
pub struct FoundRelations {
    start: IdSet,
    links: Links,
    added: AddedIds,
}

impl Model for FoundRelations {
    ghost use Rattle.osm_ways.specs.Phases.{Found, found_code};

    ghost Value = { Found };

    ghost coded = { found_code };

    ghost view = { λ a. record { start = a.start; links = a.links; added = a.added } };
}

impl FoundRelations {
    /// Nothing yet. It allocates nothing.
    pub(crate) fn new(alloc: Global) -> FoundRelations
        ensures { result ≡ nothing_found }
    {
        FoundRelations {
            start: IdSet::new(alloc),
            links: Links::new(alloc),
            added: AddedIds::new(alloc),
        }
    }

    /// Adds a relation, and whether a node or a way selects it, and whether it is wanted whole.
    ///
    /// # Errors
    ///
    /// If memory is refused, it may only be dropped.
    pub(crate) fn add(
        &mut self,
        relation: &RelationRef<'_>,
        starts: bool,
        whole: bool,
    ) -> Result<(), AllocError>
        ensures { OnOk result (self.new ≡ found_if starts whole self.old
            (relation_of relation.now).id
            (map seen_member (relation_of relation.now).members)) }
    {
        if starts {
            self.start.add(relation.id())?;
        }
        if whole && starts {
            self.added.add(relation.members())?;
        }
        add_links(&mut self.links, relation.id(), relation.members())?;
        Ok(())
    }
}

/// The third phase of a selection with parents, which takes relations: those that nodes and ways select, and a link from each
/// relation member to its relation.
#[derive(Drop)]
pub struct RelationPhase {
    chosen: Chosen,
    found: FoundRelations,
}

impl Model for RelationPhase {
    ghost use Rattle.std.specs.Prelude.{◌≡◌};
    ghost use Rattle.std.specs.FinSet as set;
    ghost use Rattle.osm_ways.specs.Added.{nothing_added};
    ghost use Rattle.osm_ways.specs.Phases.{RelationSets, relation_sets_code, relations_from};

    ghost Value = { RelationSets };

    ghost coded = { relation_sets_code };

    ghost view = { λ a. relations_from a.chosen.ways a.found };

    ghost invariant = { λ a. (a.chosen.relation_ids ≡ set.empty)
        × (a.chosen.added ≡ nothing_added) };
}

impl RelationPhase {
    /// Adds the id of a relation with a kept node or way among its members, and of each relation a link from each of its
    /// relation members.
    ///
    /// # Errors
    ///
    /// If memory is refused, the phase may have the id and some of the links. It may only be dropped.
    pub fn take_relation(&mut self, relation: &RelationRef<'_>) -> Result<(), AllocError>
        ensures { OnOk result
            (self.new ≡ relation_step self.old (seen_relation (relation_of relation.now))) }
    {
        self.take_whole(relation, false)
    }

    /// The same of one that may be wanted whole: then its members are added, if a node or a way selects it.
    ///
    /// # Errors
    ///
    /// If memory is refused, the phase may only be dropped, as there.
    pub fn take_whole(&mut self, relation: &RelationRef<'_>, whole: bool) -> Result<(), AllocError>
        ensures { OnOk result
            (self.new ≡ relation_step self.old (seen_as whole (relation_of relation.now))) }
    {
        let starts = is_start(&self.chosen, relation);
        self.found.add(relation, starts, whole)
    }

    /// All relations are taken: the ids of those that are kept are the least set that has what nodes and ways select, and with
    /// a member its relation. The ways stay as they are.
    ///
    /// # Errors
    ///
    /// If memory is refused, the phase is gone.
    pub fn end_relations(self) -> Result<ChosenParents, AllocError>
        ensures ways { IfOk result (λ chosen. chosen.ways ≡ self.ways) }
        ensures least { IfOk result
            (λ chosen. IsLeast (set.contains self.links) self.start chosen.relation_ids) }
        ensures added { IfOk result (λ chosen. chosen.added ≡ nothing_added) }
    {
        let (chosen, _added) = self.closed()?;
        Ok(ChosenParents { chosen })
    }

    /// The same with the members of relations that are wanted whole: the phase follows that takes the refs of ways among them.
    ///
    /// # Errors
    ///
    /// If memory is refused, the phase is gone.
    pub fn begin_members(self) -> Result<MemberPhase, AllocError>
        ensures begun { IfOk result (λ phase. phase ≡ begun_members self phase.relation_ids) }
        ensures least { IfOk result
            (λ phase. IsLeast (set.contains self.links) self.start phase.relation_ids) }
    {
        let (chosen, added) = self.closed()?;
        let AddedIds { nodes, ways } = added;
        let ways = sealed(ways)?;
        Ok(MemberPhase {
            chosen,
            nodes,
            ways,
            window: Window::new(),
        })
    }

    /// What was chosen, with all parents; and what is added.
    fn closed(self) -> Result<(Chosen, AddedIds), AllocError>
        ensures ways { IfOk result (λ both. both.0.ways ≡ self.ways) }
        ensures least { IfOk result
            (λ both. IsLeast (set.contains self.links) self.start both.0.relation_ids) }
        ensures none { IfOk result (λ both. both.0.added ≡ nothing_added) }
        ensures added { IfOk result (λ both. both.1 ≡ self.added) }
    {
        let RelationPhase { chosen, found } = self;
        let FoundRelations {
            start,
            links,
            added,
        } = found;
        let ids = links.close(start)?;
        let relation_ids = Some(sealed(ids)?);
        Ok((
            Chosen {
                relation_ids,
                ..chosen
            },
            added,
        ))
    }
}

/// Whether a node or a way among its members selects the relation.
fn is_start(chosen: &Chosen, relation: &RelationRef<'_>) -> bool
    requires { chosen.now.relation_ids ≡ set.empty }
    ensures { result
        ≡ is_start chosen.now.ways (map seen_member (relation_of relation.now).members) }
{
    chosen.keeps_relation(relation)
}

/// Adds a link from each of the members that is a relation to their relation.
fn add_links(links: &mut Links, id: i64, members: Members<'_>) -> Result<(), AllocError>
    ensures { OnOk result
        (links.new ≡ fold (with_link id) links.old (map seen_member (members_left members.entry))) }
{
    for member in members {
        if member.kind != MemberKind::Relation {
            continue;
        }
        links.add(member.id, id)?;
    }
    Ok(())
}

/// What was chosen, with all parents: the nodes and ways as without them, and the ids of all relations that are kept.
#[derive(Drop)]
pub struct ChosenParents {
    pub(crate) chosen: Chosen,
}

impl Model for ChosenParents {
    ghost use Rattle.osm_ways.specs.Phases.{KeptSets, kept_sets_code};

    ghost Value = { KeptSets };

    ghost coded = { kept_sets_code };

    ghost view = { λ a. a.chosen };
}
