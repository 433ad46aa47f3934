//! Strips of the ids that several choices have: they name the choices that may keep an entity.

ghost use Rattle.std.specs.Prelude.{OnOk};
ghost use Rattle.osm_entity.specs.Sources.{lent_member};
ghost use Rattle.osm_entity.specs.Views.{relation_of};
ghost use Rattle.osm_ids.specs.Strips.{MarksNamed, NamesAll, StillNames};
ghost use Rattle.osm_ways.specs.ChoiceStrips.{IsNamedBy, MarksKeepers, NamesChoice, StillNamesChoices};
ghost use Rattle.osm_ways.specs.Phases.{is_taken};
ghost use Rattle.osm_ways.specs.Seen.{seen_member, seen_relation};

use crate::phases::Chosen;
use osm_entity::{MemberKind, MemberRef, RelationRef};
use osm_ids::IdStrips;
use std::alloc::{AllocError, Global};

/// Names the choice of this number for its nodes: those of the box, refs of kept ways, and those that were added.
fn add_nodes(nodes: &mut IdStrips, number: usize, chosen: &Chosen) -> Result<(), AllocError>
    ensures kept { OnOk result (NamesAll nodes.new number chosen.now.ways.node_ids) }
    ensures added { OnOk result (NamesAll nodes.new number chosen.now.added.nodes) }
    ensures still { OnOk result (StillNames nodes.old nodes.new) }
{
    nodes.add_sealed(number, &chosen.box_ids)?;
    nodes.add_sealed(number, &chosen.refs)?;
    if let Some(added) = &chosen.added {
        nodes.add_sealed(number, &added.nodes)?;
    }
    Ok(())
}

/// Names the choice of this number for its ways: those that are kept, and those that were added.
fn add_ways(ways: &mut IdStrips, number: usize, chosen: &Chosen) -> Result<(), AllocError>
    ensures kept { OnOk result (NamesAll ways.new number chosen.now.ways.way_ids) }
    ensures added { OnOk result (NamesAll ways.new number chosen.now.added.ways) }
    ensures still { OnOk result (StillNames ways.old ways.new) }
{
    ways.add_sealed(number, &chosen.way_ids)?;
    if let Some(added) = &chosen.added {
        ways.add_sealed(number, &added.ways)?;
    }
    Ok(())
}

/// Names the choice of this number for the relations of all parents, if they were chosen.
fn add_relations(strips: &mut IdStrips, number: usize, chosen: &Chosen) -> Result<(), AllocError>
    ensures kept { OnOk result (NamesAll strips.new number chosen.now.relation_ids) }
    ensures still { OnOk result (StillNames strips.old strips.new) }
{
    if let Some(ids) = &chosen.relation_ids {
        strips.add_sealed(number, ids)?;
    }
    Ok(())
}

/// Which of several choices, by their numbers, have an id in each strip of ids.
#[derive(Drop)]
pub struct ChoiceStrips {
    /// Strips of the nodes that are kept.
    pub nodes: IdStrips,
    /// Strips of the ways that are kept.
    pub ways: IdStrips,
    /// Strips of the relations whose parents are kept.
    pub relations: IdStrips,
}

impl ChoiceStrips {
    /// The strips of no choices, for about so many ids of all choices together, as `Chosen::count` says: nodes, ways and relations have as
    /// many strips each as all of these ids would. Only speed and space depend on the number. It allocates nothing.
    pub fn new(alloc: Global, ids: u64) -> ChoiceStrips {
        ChoiceStrips {
            nodes: IdStrips::new(alloc, ids),
            ways: IdStrips::new(alloc, ids),
            relations: IdStrips::new(alloc, ids),
        }
    }

    /// Names the choice of this number for each of its ids.
    ///
    /// # Errors
    ///
    /// If memory is refused, the choice may be named for some of them.
    pub fn add(&mut self, number: usize, chosen: &Chosen) -> Result<(), AllocError>
        ensures named { OnOk result (NamesChoice self.new number chosen.now) }
        ensures still { OnOk result (StillNamesChoices self.old self.new) }
    {
        add_nodes(&mut self.nodes, number, chosen)?;
        add_ways(&mut self.ways, number, chosen)?;
        add_relations(&mut self.relations, number, chosen)?;
        Ok(())
    }

    /// Marks the choices that may have this member; `false` means that there are none. `true` says nothing, and others may be marked too.
    fn mark_member(&self, member: &MemberRef<'_>, marks: &mut [bool]) -> bool
        ensures { MarksNamed (IsNamedBy self.now (seen_member (lent_member member.now)))
            marks.old marks.new result }
    {
        match member.kind {
            MemberKind::Node => self.nodes.mark(member.id, marks),
            MemberKind::Way => self.ways.mark(member.id, marks),
            MemberKind::Relation => self.relations.mark(member.id, marks),
        }
    }

    /// Marks the choices that may keep a relation; `false` means that there are none. `true` says nothing, and others may be marked too.
    /// It does not allocate.
    pub fn mark_relation(&self, relation: &RelationRef<'_>, marks: &mut [bool]) -> bool
        ensures { MarksKeepers self.now
            (λ sets. is_taken sets (seen_relation (relation_of relation.now)))
            marks.old marks.new result }
    {
        let mut some = false;
        for member in relation.members() {
            some |= self.mark_member(&member, marks);
        }
        some
    }
}
