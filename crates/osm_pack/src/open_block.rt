//! The block that is open. An entity is added without a call, except that a way or a relation is made by one.

ghost use Rattle.std.specs.Prelude.{ℕ, ◌≡◌, ◌↔◌, ◌+◌, ◌-◌, ◌≤◌, ◌<◌, ◌^◌, min, ◌&&◌, ◌++◌, ◌∷◌, [], List, true, nat_le, length, IsTrue, IfOk, OnOk, map, take, drop};
ghost use Rattle.std.specs.List.{AllByRecursion};
ghost use Rattle.osm_entity.specs.Entity.{EntitySpec, node, way, relation};
ghost use Rattle.osm_entity.specs.EntityTexts.{way_texts, relation_texts};
ghost use Rattle.osm_entity.specs.Views.{node_of, way_of, relation_of};
ghost use Rattle.pbf_wire.specs.Message.{Each, slot_bytes};
ghost use Rattle.pbf_strings.specs.TableOut.{texts_after, table_message};
ghost use Rattle.pbf_block.specs.WrittenEntity.{way_message, relation_message};
ghost use Rattle.pbf_block.specs.WrittenBlock.{is_block, block_message, scale_among, texts_of_all, nodes_among};
ghost use Rattle.pbf_dense.specs.Cursors.{dense_left};
ghost use Rattle.pbf_dense.specs.WrittenDense.{columns_held, dense_length, dense_message};
ghost use Rattle.osm_pack.specs.Open.{Holds, IsOpen, IsJoining, MayAdd, Makes, Encodes, Counts, Adds, IsClosing, block_held};
ghost use Rattle.osm_pack.specs.Likenesses.{is_like, has_like, likeness_of};
ghost use Rattle.osm_pack.specs.View.{entity_shown};
ghost use Rattle.osm_entity.specs.declared.weight.TheConstants.{HIGHEST_WEIGHT};
ghost use Rattle.osm_pack.specs.declared.open_block.TheConstants.{MOST_HELD};
ghost use Rattle.pbf_block.specs.declared.block_write.TheConstants.{MOST_ENTITIES};

use crate::frames::EntityView;
use crate::likeness::Likeness;
use osm_entity::{HIGHEST_WEIGHT, NodeRef, RelationRef, Scale, WayRef};
use pbf_block::{DEFAULT_SCALE, EntityOut, MOST_ENTITIES, put_block, put_dense};
use pbf_dense::{Dense, DenseOut};
use pbf_strings::TableOut;
use std::alloc::{AllocError, Global};
use std::hash::BuildHasher;
use std::mem;

/// The most bytes that a block holds: its columns, messages and texts, and four for each text. While it is put together the
/// bytes that are made of them count too, and while an entity is encoded those that it takes until it is in the group.
pub const MOST_HELD: u64 = 28_000_000;

/// The entities of a block, encoded as they come: nodes as columns, ways and relations as messages.
#[derive(Drop)]
pub(crate) struct OpenBlock<S: BuildHasher> {
    likeness: Option<Likeness>,
    count: usize,
    weight: u64,
    texts: TableOut<S>,
    nodes: DenseOut,
    group: Vec<u8>,
    writer: EntityOut,
}

/// Whether an entity may join a block: by whether it is like those that are there, how many these are, what they weigh, and
/// what it weighs.
fn may_join(is_alike: bool, count: usize, weight: u64, more: u64) -> bool
    ensures { result ≡ (is_alike && (nat_le (count + 1) MOST_ENTITIES
        && nat_le (weight + more) HIGHEST_WEIGHT)) }
{
    is_alike && count < MOST_ENTITIES && weight.saturating_add(more) <= HIGHEST_WEIGHT
}

/// What decides whether an entity may join a block.
#[derive(Clone, Copy)]
pub(crate) struct Joining {
    pub(crate) likeness: Likeness,
    pub(crate) weight: u64,
}

impl<S: BuildHasher> OpenBlock<S> {
    /// A block without entities, which allocates nothing yet.
    pub(crate) fn new(alloc: Global, hasher: S) -> OpenBlock<S>
        ensures { Holds result [] }
    {
        OpenBlock {
            likeness: None,
            count: 0,
            weight: 0,
            texts: TableOut::new(alloc, hasher),
            nodes: DenseOut::new(alloc),
            group: Vec::new(alloc),
            writer: EntityOut::new(alloc),
        }
    }

    /// Removes all entities, also from a block in which something failed.
    pub(crate) fn clear(&mut self, alloc: Global)
        ensures { Holds self.new [] }
    {
        self.likeness = None;
        self.count = 0;
        self.weight = 0;
        self.texts.clear();
        self.nodes = DenseOut::new(alloc);
        self.group.clear();
        self.writer.clear();
    }

    /// Whether there are no entities.
    pub(crate) fn is_empty(&self) -> bool
        ensures { (es : List EntitySpec) → Holds self.now es → IsTrue result ↔ (es ≡ []) }
    {
        self.count == 0
    }

    /// Whether an entity of this likeness is like those that are there.
    fn is_alike(&self, likeness: Likeness) -> bool
        ensures { result ≡ is_like self.now.likeness likeness }
    {
        match self.likeness {
            Some(first) => first.same(likeness),
            None => true,
        }
    }

    /// Whether there are entities, and one of this likeness is like them.
    pub(crate) fn has_like(&self, likeness: Likeness) -> bool
        ensures { result ≡ has_like self.now.likeness likeness }
    {
        match self.likeness {
            Some(first) => first.same(likeness),
            None => false,
        }
    }

    /// Whether one more entity may join the block.
    pub(crate) fn takes(&self, joining: Joining) -> bool
        ensures { (es : List EntitySpec) (e : EntitySpec) → IsJoining joining e
            → Holds self.now es → result ≡ is_block (es ++ e ∷ []) }
    {
        let is_alike = self.is_alike(joining.likeness);
        may_join(is_alike, self.count, self.weight, joining.weight)
    }

    /// Makes the message of a way in the writer. Its columns and the message are held there beside what the block holds, until the
    /// message is in the group too: all of it together is no more than `MOST_HELD` (`room`).
    #[inline(never)]
    fn make_way(&mut self, view: &WayRef<'_>) -> Result<(), AllocError>
        requires { MayAdd self.old (way (way_of view.now)) }
        ensures made { OnOk result (Makes self.old self.new (way_texts (way_of view.now))) }
        ensures message { (used : List (List ℕ)) → OnOk result (self.new.writer.message.items
            ≡ way_message (texts_after self.new.texts used) (way_of view.now)) }
        ensures room { OnOk result (block_held self.new
            + length (slot_bytes (Each 3 (self.new.writer.message.items ∷ []))) ≤ MOST_HELD) }
    {
        self.writer.make_way(view, &mut self.texts)?;
        Ok(())
    }

    /// The same of a relation.
    #[inline(never)]
    fn make_relation(&mut self, view: &RelationRef<'_>) -> Result<(), AllocError>
        requires { MayAdd self.old (relation (relation_of view.now)) }
        ensures made { OnOk result
            (Makes self.old self.new (relation_texts (relation_of view.now))) }
        ensures message { (used : List (List ℕ)) → OnOk result (self.new.writer.message.items
            ≡ relation_message (texts_after self.new.texts used) (relation_of view.now)) }
        ensures room { OnOk result (block_held self.new
            + length (slot_bytes (Each 4 (self.new.writer.message.items ∷ []))) ≤ MOST_HELD) }
    {
        self.writer.make_relation(view, &mut self.texts)?;
        Ok(())
    }

    /// Encodes a node after the others. It is part of [`OpenBlock::put`].
    #[inline(always)]
    fn put_node(&mut self, view: &NodeRef<'_>) -> Result<(), AllocError>
        requires { MayAdd self.old (node (node_of view.now)) }
        ensures { (es : List EntitySpec) → Holds self.old es
            → OnOk result (Encodes self.old self.new es (node (node_of view.now))) }
    {
        self.nodes.push(view, &mut self.texts)?;
        Ok(())
    }

    /// Encodes an entity after the others. It is part of [`OpenBlock::add`].
    #[inline(always)]
    fn put(&mut self, entity: EntityView<'_, '_>) -> Result<(), AllocError>
        requires { MayAdd self.old (entity_shown entity) }
        ensures { (es : List EntitySpec) → Holds self.old es
            → OnOk result (Encodes self.old self.new es (entity_shown entity.entry)) }
    {
        match entity {
            EntityView::Node(view) => self.put_node(view)?,
            EntityView::Way(view) => {
                self.make_way(view)?;
                self.writer.append_way(&mut self.group)?;
            }
            EntityView::Relation(view) => {
                self.make_relation(view)?;
                self.writer.append_relation(&mut self.group)?;
            }
        }
        Ok(())
    }

    /// Counts an entity that was encoded. All later ones are like the first.
    fn count_joined(&mut self, joining: Joining)
        requires few { self.old.count < MOST_ENTITIES }
        requires light { self.old.weight + joining.weight ≤ HIGHEST_WEIGHT }
        ensures { Counts self.old self.new joining }
    {
        if self.likeness.is_none() {
            self.likeness = Some(joining.likeness);
        }
        self.count += 1;
        self.weight += joining.weight;
    }

    /// Adds an entity after the others. After an `Err` the block is unspecified. It is part of its callers, which know the entity's kind.
    #[inline(always)]
    pub(crate) fn add(
        &mut self,
        entity: EntityView<'_, '_>,
        joining: Joining,
    ) -> Result<(), AllocError>
        requires may { MayAdd self.old (entity_shown entity) }
        requires is { IsJoining joining (entity_shown entity) }
        ensures { Adds self.old self.new (entity_shown entity.entry) result }
    {
        self.put(entity)?;
        self.count_joined(joining);
        Ok(())
    }

    /// Adds some of the next nodes of a dense message after the others: as many as may join them, but at most so many, and says how many.
    /// All of them are like those that are there. After an `Err` the block is unspecified. It is one call
    /// for many nodes.
    #[inline(never)]
    pub(crate) fn add_nodes(
        &mut self,
        nodes: &mut Dense<'_>,
        most: usize,
    ) -> Result<usize, AllocError>
        requires open { IsOpen self.old }
        requires many { most ≤ length (dense_left nodes.old) }
        requires alike { AllByRecursion (λ n. has_like self.old.likeness (likeness_of (node n))
            ≡ true) (dense_left nodes.old) }
        ensures few { IfOk result (λ count. count ≤ most) }
        ensures added { (es : List EntitySpec) → Holds self.old es
            → IfOk result (λ count. Holds self.new
            (es ++ map node (take count (dense_left nodes.old)))) }
        ensures rest { IfOk result
            (λ count. dense_left nodes.new ≡ drop count (dense_left nodes.old)) }
    {
        let most = most.min(MOST_ENTITIES.saturating_sub(self.count));
        let room = HIGHEST_WEIGHT.saturating_sub(self.weight);
        let joining = nodes.weigh(most, room);
        self.nodes.take(nodes, joining.count, &mut self.texts)?;
        self.count += joining.count;
        self.weight += joining.weight;
        Ok(joining.count)
    }

    /// The scale of all entities.
    fn scale(&self) -> Scale
        ensures { (es : List EntitySpec) → Holds self.now es → result ≡ scale_among es }
    {
        match self.likeness {
            Some(likeness) => likeness.scale,
            None => DEFAULT_SCALE,
        }
    }

    /// How many bytes the texts, columns and messages hold, four for each text with them, or the greatest number if they
    /// are more.
    pub(crate) fn held(&self) -> u64
        ensures { result ≡ min (block_held self.now) (2 ^ 64 - 1) }
    {
        self.texts
            .held()
            .saturating_add(self.nodes.held())
            .saturating_add(self.group.len() as u64)
            .saturating_add(self.writer.held())
    }

    /// The StringTable of the texts, beside which it is held.
    fn table(&self, alloc: Global) -> Result<Vec<u8>, AllocError>
        requires { IsOpen self.now }
        ensures table { IfOk result (λ table. table.items ≡ table_message self.now.texts) }
        // The texts and their table together are no more than `MOST_HELD`.
        ensures room { IfOk result (λ table. block_held self.now + length table.items ≤ MOST_HELD) }
    {
        let mut table = Vec::new(alloc);
        self.texts.write(&mut table)?;
        Ok(table)
    }

    /// Removes the texts, and then adds the message of the nodes to the group. The texts go first, so that no more than two
    /// copies of them are held at a time. The table, the columns and the message are held beside each other (`made`), and then
    /// the table, the message and the group (`room`). After an `Err` the block is unspecified.
    #[tactic(auto, using(crate::proofs::OpenLemmas::nodes_held))]
    fn end_group(&mut self, alloc: Global) -> Result<(), AllocError>
        ensures closing { (es : List EntitySpec) → Holds self.old es
            → OnOk result (IsClosing self.new (table_message self.old.texts) es) }
        ensures made { (es : List EntitySpec) → Holds self.old es
            → length (table_message self.old.texts)
            + (dense_length (columns_held self.old.nodes) + length self.old.group.items)
            + length (dense_message (texts_of_all es) (nodes_among es)) ≤ MOST_HELD }
        ensures room { (es : List EntitySpec) → Holds self.old es
            → OnOk result (length (table_message self.old.texts)
            + length (dense_message (texts_of_all es) (nodes_among es))
            + length self.new.group.items ≤ MOST_HELD) }
    {
        let texts = &mut self.texts;
        texts.clear();
        let dense = mem::replace(&mut self.nodes, DenseOut::new(alloc)).finish(alloc)?;
        put_dense(&mut self.group, &dense)?;
        Ok(())
    }

    /// The PrimitiveBlock of the table and the group, beside which it is held.
    fn put_together(&self, table: &[u8], scale: Scale, alloc: Global) -> Result<Vec<u8>, AllocError>
        ensures payload { (es : List EntitySpec) → IsClosing self.now table.now es
            → scale ≡ scale_among es → IfOk result (λ payload. payload.items ≡ block_message es) }
        ensures room { (es : List EntitySpec) → IsClosing self.now table.now es
            → scale ≡ scale_among es
            → IfOk result (λ payload. block_held self.now + length table.now
            + length payload.items ≤ MOST_HELD) }
    {
        let mut payload = Vec::new(alloc);
        put_block(&mut payload, table, &self.group, scale)?;
        Ok(payload)
    }

    /// The PrimitiveBlock of the entities, which are removed. After an `Err` the block is unspecified.
    pub(crate) fn close(&mut self, alloc: Global) -> Result<Vec<u8>, AllocError>
        requires { IsOpen self.old }
        ensures payload { (es : List EntitySpec) → Holds self.old es
            → IfOk result (λ payload. payload.items ≡ block_message es) }
        ensures empty { OnOk result (Holds self.new []) }
    {
        let scale = self.scale();
        let table = self.table(alloc)?;
        self.end_group(alloc)?;
        let payload = self.put_together(&table, scale, alloc)?;
        self.clear(alloc);
        Ok(payload)
    }
}
