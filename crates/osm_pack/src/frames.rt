//! Headers and blocks, written as frames.

ghost use Rattle.std.specs.Prelude.{◌≡◌, ◌+◌, ◌++◌, ◌≤◌, [], List, OnOk, IfOk, IfErr, length, map, take, drop};
ghost use Rattle.std.specs.List.{AllByRecursion};
ghost use Rattle.osm_entity.specs.Entity.{EntitySpec, node};
ghost use Rattle.osm_entity.specs.Ranges.{EntityFits};
ghost use Rattle.osm_entity.specs.Views.{entity_of, node_of};
ghost use Rattle.osm_entity.specs.Weight.{entity_weight, text_weight};
ghost use Rattle.pbf_header.specs.Header.{header_of};
ghost use Rattle.osm_pack.specs.Cuts.{block_frame, header_frame, then_pending, then_written, at_end};
ghost use Rattle.osm_pack.specs.Open.{Holds, IsOpen, IsJoining};
ghost use Rattle.osm_pack.specs.Likenesses.{IsLikeNode};
ghost use Rattle.pbf_dense.specs.Cursors.{dense_left};
ghost use Rattle.pbf_frame.specs.declared.stop.Stop.TheVariants.{Memory};
ghost use Rattle.osm_pack.specs.Pushing.{MakesRoom, WritesOrStops};
ghost use Rattle.osm_pack.specs.View.{entity_shown};
ghost use Rattle.osm_pack.specs.Stops.{UsesDrain};
ghost use Rattle.pbf_header.specs.declared.write.TheConstants.{MOST_HEADER_TEXT};

use crate::likeness::Likeness;
use crate::open_block::{Joining, OpenBlock};
use osm_entity::{EntityRef, NodeRef, RelationRef, WayRef};
use pbf_dense::Dense;
use pbf_frame::{Drain, FrameKind, Stop, put_frame};
use pbf_header::Header;
use std::alloc::Global;
use std::hash::BuildHasher;

/// Writes a block, and empties it.
pub(crate) fn close_into<D: Drain, S: BuildHasher>(
    alloc: Global,
    drain: &mut D,
    block: &mut OpenBlock<S>,
) -> Result<(), Stop>
    requires { IsOpen block.old }
    ensures writes { (es : List EntitySpec) → Holds block.old es
        → WritesOrStops D.Drain (block_frame es) drain.old drain.new result }
    ensures empty { OnOk result (Holds block.new []) }
    ensures drain { UsesDrain D.Drain drain.old drain.new result }
{
    let payload = block.close(alloc)?;
    put_frame(drain, FrameKind::Data, &payload)?;
    Ok(())
}

/// An entity that is lent by its kind: so a node can be packed where it was read, and is not moved into an [`EntityRef`].
#[derive(Clone, Copy)]
pub(crate) enum EntityView<'a, 'b> {
    Node(&'a NodeRef<'b>),
    Way(&'a WayRef<'b>),
    Relation(&'a RelationRef<'b>),
}

impl<'a, 'b> EntityView<'a, 'b> {
    /// The same entity.
    pub(crate) fn of(entity: &'a EntityRef<'b>) -> EntityView<'a, 'b>
        ensures { entity_shown result ≡ entity_of entity.now }
    {
        match entity {
            EntityRef::Node(view) => EntityView::Node(view),
            EntityRef::Way(view) => EntityView::Way(view),
            EntityRef::Relation(view) => EntityView::Relation(view),
        }
    }
}

/// An entity, and what it weighs.
#[derive(Clone, Copy)]
pub(crate) struct Weighed<'a, 'b> {
    pub(crate) entity: EntityView<'a, 'b>,
    pub(crate) weight: u64,
}

/// Makes room for an entity: the open block is written if the entity may not join it. It is part of [`push_into`].
#[inline(always)]
fn make_room<D: Drain, S: BuildHasher>(
    alloc: Global,
    drain: &mut D,
    block: &mut OpenBlock<S>,
    joining: Joining,
) -> Result<(), Stop>
    requires { IsOpen block.old }
    ensures open { OnOk result (IsOpen block.new) }
    ensures made { (e : EntitySpec) → IsJoining joining e → EntityFits e
        → MakesRoom D.Drain e drain.old drain.new block.old block.new result }
    ensures drain { UsesDrain D.Drain drain.old drain.new result }
{
    if !block.takes(joining) {
        close_into(alloc, drain, block)?;
    }
    Ok(())
}

/// Adds an entity to the open block, which is written first if the entity may not join it. It is part of its callers, which know the
/// entity's kind.
#[inline(always)]
pub(crate) fn push_into<D: Drain, S: BuildHasher>(
    alloc: Global,
    drain: &mut D,
    block: &mut OpenBlock<S>,
    weighed: Weighed<'_, '_>,
) -> Result<(), Stop>
    requires open { IsOpen block.old }
    requires fits { EntityFits (entity_shown weighed.entity) }
    requires weighs { weighed.weight ≡ entity_weight (entity_shown weighed.entity) }
    ensures open { OnOk result (IsOpen block.new) }
    ensures pending { (es : List EntitySpec) → Holds block.old es
        → OnOk result (Holds block.new (then_pending es (entity_shown weighed.entry.entity))) }
    ensures writes { (es : List EntitySpec) → Holds block.old es
        → WritesOrStops D.Drain (then_written es (entity_shown weighed.entry.entity))
        drain.old drain.new result }
    ensures drain { UsesDrain D.Drain drain.old drain.new result }
{
    let Weighed { entity, weight } = weighed;
    let joining = Joining {
        likeness: Likeness::of(entity),
        weight,
    };
    make_room(alloc, drain, block, joining)?;
    block.add(entity, joining)?;
    Ok(())
}

/// Adds some of the next nodes of a dense message to the open block, as [`OpenBlock::add_nodes`] does, if its entities are like this node,
/// which all of them are like. Otherwise it adds none.
pub(crate) fn add_into<S: BuildHasher>(
    block: &mut OpenBlock<S>,
    like: &NodeRef<'_>,
    nodes: &mut Dense<'_>,
    most: usize,
) -> Result<usize, Stop>
    requires open { IsOpen block.old }
    requires many { most ≤ length (dense_left nodes.old) }
    requires alike { AllByRecursion (IsLikeNode (node_of like.now)) (dense_left nodes.old) }
    ensures open { OnOk result (IsOpen block.new) }
    ensures few { IfOk result (λ count. count ≤ most) }
    ensures added { (es : List EntitySpec) → Holds block.old es
        → IfOk result (λ count. Holds block.new
        (es ++ map node (take count (dense_left nodes.old)))) }
    ensures rest { IfOk result
        (λ count. dense_left nodes.new ≡ drop count (dense_left nodes.old)) }
    ensures memory { IfErr result (λ stop. stop ≡ Memory) }
{
    if !block.has_like(Likeness::of(EntityView::Node(like))) {
        return Ok(0);
    }
    let count = block.add_nodes(nodes, most)?;
    Ok(count)
}

/// Writes a header.
pub(crate) fn put_header_into<D: Drain>(
    alloc: Global,
    drain: &mut D,
    header: &Header,
) -> Result<(), Stop>
    requires { text_weight (header_of header.now).source + text_weight (header_of header.now).url
        ≤ MOST_HEADER_TEXT }
    ensures writes { WritesOrStops D.Drain (header_frame (header_of header.now))
        drain.old drain.new result }
    ensures drain { UsesDrain D.Drain drain.old drain.new result }
{
    let mut payload = Vec::new(alloc);
    header.write(&mut payload)?;
    put_frame(drain, FrameKind::Header, &payload)?;
    Ok(())
}

/// Writes a block, if it has entities.
pub(crate) fn finish_into<D: Drain, S: BuildHasher>(
    alloc: Global,
    drain: &mut D,
    block: &mut OpenBlock<S>,
) -> Result<(), Stop>
    requires { IsOpen block.old }
    ensures writes { (es : List EntitySpec) → Holds block.old es
        → WritesOrStops D.Drain (at_end es) drain.old drain.new result }
    ensures open { OnOk result (IsOpen block.new) }
    ensures empty { OnOk result (Holds block.new []) }
    ensures drain { UsesDrain D.Drain drain.old drain.new result }
{
    if !block.is_empty() {
        close_into(alloc, drain, block)?;
    }
    Ok(())
}
