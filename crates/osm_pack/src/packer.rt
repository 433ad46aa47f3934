//! Entities on their way into a drain.

use crate::frames::{EntityView, Weighed, add_into, finish_into, push_into, put_header_into};
use crate::open_block::OpenBlock;
use osm_entity::{EntityRef, NodeRef};
use pbf_dense::Dense;
use pbf_frame::{Drain, Stop};
use pbf_header::Header;
use std::alloc::Global;
use std::hash::BuildHasher;
use std::marker::Model;

/// Packs entities into blocks, and writes each block when the next entity does not fit into it.
///
/// Each block is the longest prefix of what is left that is of one kind and one scale, for nodes with one set of metadata
/// fields, of at most 8,000 entities that weigh at most 12,000,000 together. An entity is encoded when it is pushed, and only the
/// columns and the texts of one block are held.
#[derive(Drop)]
pub struct Packer<D: Drain, S: BuildHasher> {
    drain: D,
    block: OpenBlock<S>,
    begun: bool,
    stop: Option<Stop>,
    alloc: Global,
}

impl<D: Drain, S: BuildHasher> Model for Packer<D, S> {
    ghost use Rattle.osm_pack.specs.Packing.{Packing};

    ghost Value = { Packing D S S.Hasher };

    ghost use Rattle.osm_pack.specs.Open.{IsOpen};

    ghost view = { λ p. record {
      drain = p.drain;
      block = p.block;
      begun = p.begun;
      stop = p.stop;
    } };

    ghost invariant = { λ p. IsOpen p.block };
}

impl<D: Drain, S: BuildHasher> Packer<D, S> {
    ghost use Rattle.std.specs.Prelude.{◌≡◌, ◌+◌, ◌≤◌, [], List, true, false, OnOk, length};
    ghost use Rattle.osm_entity.specs.Entity.{EntitySpec, node};
    ghost use Rattle.osm_entity.specs.Ranges.{EntityFits, NodeFits};
    ghost use Rattle.osm_entity.specs.Views.{entity_of, node_of};
    ghost use Rattle.pbf_header.specs.Header.{header_of};
    ghost use Rattle.osm_entity.specs.Weight.{entity_weight, node_weight, text_weight};
    ghost use Rattle.pbf_header.specs.declared.write.TheConstants.{MOST_HEADER_TEXT};
    ghost use Rattle.pbf_frame.specs.Devices.{IsFront};
    ghost use Rattle.pbf_frame.specs.Transfers.{Added};
    ghost use Rattle.osm_pack.specs.Cuts.{header_frame, at_end};
    ghost use Rattle.osm_pack.specs.declared.open_block.TheConstants.{MOST_HELD};
    ghost use Rattle.osm_pack.specs.View.{entity_shown};
    ghost use Rattle.std.specs.List.{AllByRecursion};
    ghost use Rattle.pbf_dense.specs.Cursors.{dense_left};
    ghost use Rattle.osm_pack.specs.Likenesses.{IsLikeNode};
    ghost use Rattle.osm_pack.specs.Packing.{Pending, Pushes, PushesNodes, UsesPacker, IsPacking, has_header, packer_held};

    /// A packer over a drain, with no header and no entities yet. The input is untrusted, so the hasher should be seeded.
    pub fn new(alloc: Global, drain: D, hasher: S) -> Packer<D, S>
        ensures drain { result.drain ≡ drain }
        ensures lender { D.lender result.drain ≡ D.lender drain }
        ensures packing { IsPacking result }
        ensures none { Pending result [] }
        ensures no_header { has_header result ≡ false }
    {
        Packer {
            drain,
            block: OpenBlock::new(alloc, hasher),
            begun: false,
            stop: None,
            alloc,
        }
    }

    /// Whether a header was put, or was to be put.
    pub fn has_header(&self) -> bool
        ensures { result ≡ has_header self.now }
    {
        self.begun
    }

    /// Why the packer stopped, once it has: it is spent then.
    pub fn stop(&self) -> Option<Stop>
        ensures { result ≡ self.now.stop }
    {
        self.stop
    }

    /// Writes the header of the file, in the form that [`Header::write`] gives it. It comes first and once. The caller must prove that
    /// its source and its base URL have at most 12,000,000 bytes together.
    ///
    /// After a stop a prefix of its frame went out, and the packer is spent: it returns the same stop again, and touches no
    /// device.
    pub fn put_header(&mut self, header: &Header) -> Result<(), Stop>
        requires once { has_header self.old ≡ false }
        requires kept { text_weight (header_of header.now).source + text_weight
            (header_of header.now).url ≤ MOST_HEADER_TEXT }
        // A header was put, or was to be put.
        ensures begun { has_header self.new ≡ true }
        // The drain took the header's frame, by what it reports and by each log.
        ensures written { IsPacking self.old
            → OnOk result
            (Added D.Drain self.old.drain (header_frame (header_of header.now)) self.new.drain) }
        // What waits stays.
        ensures pending { (es : List EntitySpec) → Pending self.old es
            → OnOk result (Pending self.new es) }
        // The packer goes on.
        ensures packing { OnOk result (IsPacking self.new) }
        // What went out is a prefix of what was to be written.
        ensures front { IsPacking self.old
            → IsFront (D.taken self.old.drain) (D.taken self.new.drain)
            (header_frame (header_of header.now)) }
        // After a stop the packer is spent: it returns the same stop again, and the drain is as it was. `Write` comes only if the drain's count
        // of failures rose; any other stop is `Memory`. The drain keeps its references, and its count of failures doesn't fall.
        ensures uses { UsesPacker D.Drain self.old self.new result }
    {
        self.begun = true;
        if let Some(stop) = self.stop {
            return Err(stop);
        }
        let outcome = put_header_into(self.alloc, &mut self.drain, header);
        if let Err(stop) = outcome {
            self.stop = Some(stop);
            self.block.clear(self.alloc);
        }
        outcome
    }

    /// Adds an entity after the others: to those that wait, or, if their block has no room for it, they are written and it
    /// waits by itself. The caller must prove that the entity fits, and that a header was put.
    ///
    /// After a stop nothing went out, or a prefix of the block that was to be written, and the packer is spent.
    #[tactic(auto, using(crate::proofs::OpenLemmas::exact))]
    pub fn push(&mut self, entity: &EntityRef<'_>) -> Result<(), Stop>
        requires begun { has_header self.old ≡ true }
        requires fits { EntityFits (entity_of entity.now) }
        // It waits with the others, or these went out as a block and it waits by itself.
        ensures { Pushes D.Drain (entity_of entity.now) self.old self.new result }
    {
        self.push_weighed(entity, entity.weight())
    }

    /// [`Packer::push`] of an entity that the caller has weighed, as [`EntityRef::weight_if_fits`] does.
    pub fn push_weighed(&mut self, entity: &EntityRef<'_>, weight: u64) -> Result<(), Stop>
        requires begun { has_header self.old ≡ true }
        requires fits { EntityFits (entity_of entity.now) }
        requires weighs { weight ≡ entity_weight (entity_of entity.now) }
        ensures { Pushes D.Drain (entity_of entity.now) self.old self.new result }
    {
        let entity = EntityView::of(entity);
        self.push_view(Weighed { entity, weight })
    }

    /// [`Packer::push_weighed`] of a node, which need not be made an entity for it.
    pub fn push_node(&mut self, view: &NodeRef<'_>, weight: u64) -> Result<(), Stop>
        requires begun { has_header self.old ≡ true }
        requires fits { NodeFits (node_of view.now) }
        requires weighs { weight ≡ node_weight (node_of view.now) }
        ensures { Pushes D.Drain (node (node_of view.now)) self.old self.new result }
    {
        let entity = EntityView::Node(view);
        self.push_view(Weighed { entity, weight })
    }

    /// The same of any entity. It is part of both.
    #[inline(always)]
    fn push_view(&mut self, weighed: Weighed<'_, '_>) -> Result<(), Stop>
        requires begun { has_header self.old ≡ true }
        requires fits { EntityFits (entity_shown weighed.entity) }
        requires weighs { weighed.weight ≡ entity_weight (entity_shown weighed.entity) }
        ensures { Pushes D.Drain (entity_shown weighed.entry.entity) self.old self.new result }
    {
        if let Some(stop) = self.stop {
            return Err(stop);
        }
        let outcome = push_into(self.alloc, &mut self.drain, &mut self.block, weighed);
        if let Err(stop) = outcome {
            self.stop = Some(stop);
            self.block.clear(self.alloc);
        }
        outcome
    }

    /// Adds some of the next nodes of a dense message after the others, without a write: as many as may wait with those that do, but at most so
    /// many, which are taken from the message, and says how many they are. If those that wait are not like `like` it adds none. The caller must
    /// prove that there are so many nodes, that their numbers are in their ranges and that all are like `like`, and that a header was put.
    ///
    /// It stops only if memory is refused; the packer is spent then.
    pub fn push_nodes(
        &mut self,
        like: &NodeRef<'_>,
        nodes: &mut Dense<'_>,
        most: usize,
    ) -> Result<usize, Stop>
        requires begun { has_header self.old ≡ true }
        requires many { most ≤ length (dense_left nodes.old) }
        requires alike { AllByRecursion (IsLikeNode (node_of like.now)) (dense_left nodes.old) }
        // So many of the nodes wait with the others, and nothing went out.
        ensures { PushesNodes D.Drain most (dense_left nodes.old) (dense_left nodes.new)
            self.old self.new result }
    {
        if let Some(stop) = self.stop {
            return Err(stop);
        }
        let outcome = add_into(&mut self.block, like, nodes, most);
        if let Err(stop) = outcome {
            self.stop = Some(stop);
            self.block.clear(self.alloc);
        }
        outcome
    }

    /// Writes the entities that wait, if there are any. The caller must prove that a header was put.
    ///
    /// After a stop a prefix of their block went out, and the packer is spent.
    pub fn finish(&mut self) -> Result<(), Stop>
        requires { has_header self.old ≡ true }
        // There is a header still.
        ensures header { has_header self.new ≡ true }
        // Nothing waits.
        ensures pending { OnOk result (Pending self.new []) }
        // Those that waited went out as a block, by what the drain reports and by each log.
        ensures written { (es : List EntitySpec) → Pending self.old es
            → OnOk result (Added D.Drain self.old.drain (at_end es) self.new.drain) }
        // The packer goes on.
        ensures packing { OnOk result (IsPacking self.old × IsPacking self.new) }
        // What went out is a prefix of what was to be written.
        ensures front { IsPacking self.old → (es : List EntitySpec) → Pending self.old es
            → IsFront (D.taken self.old.drain) (D.taken self.new.drain) (at_end es) }
        // After a stop the packer is spent: it returns the same stop again, and the drain is as it was. `Write` comes only if the drain's count
        // of failures rose; any other stop is `Memory`. The drain keeps its references, and its count of failures doesn't fall.
        ensures uses { UsesPacker D.Drain self.old self.new result }
    {
        if let Some(stop) = self.stop {
            return Err(stop);
        }
        let outcome = finish_into(self.alloc, &mut self.drain, &mut self.block);
        if let Err(stop) = outcome {
            self.stop = Some(stop);
            self.block.clear(self.alloc);
        }
        outcome
    }

    /// The bytes held for the entities that wait: the lengths of their columns, messages and texts, and four for each text. While
    /// a block is closed what is made of them is held besides, and while a way or a relation is encoded its columns and its message.
    /// All of it together is no more than [`MOST_HELD`], 28,000,000, either.
    pub fn held(&self) -> u64
        ensures value { result ≡ packer_held self.now }
        ensures bound { result ≤ MOST_HELD }
    {
        self.block.held()
    }

    /// What is held is bounded, whatever was called before. This does nothing: it is a law, called where a proof needs it.
    pub fn held_is_bounded(&self)
        ensures { packer_held self.now ≤ MOST_HELD }
    {
        let _block = &self.block;
    }

    /// Returns the drain. Entities that wait are not written: this is for use after [`Packer::finish`], or after a stop.
    pub fn into_drain(self) -> D
    where
        S: Drop,
        ensures drain { result ≡ self.drain }
        ensures lender { D.lender result ≡ D.lender self.drain }
    {
        self.drain
    }
}
