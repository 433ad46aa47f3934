//! Entities that are picked, on their way into the drain, and the steps that judge them.

ghost use Rattle.std.specs.Prelude.{true, false, [], ◌∷◌, ◌≡◌, ◌-◌, None, IfErr, OnOk, map};
ghost use Rattle.std.specs.Option.{option_map};
ghost use Rattle.osm_entity.specs.Entity.{node, relation, way};
ghost use Rattle.osm_entity.specs.Views.{entity_of, node_of};
ghost use Rattle.osm_pack.specs.Packing.{has_header};
ghost use Rattle.pbf_dense.specs.Cursors.{dense_left};
ghost use Rattle.pbf_block.specs.Runs.{joined_runs, node_from, relation_from, run_entities, runs_left, way_from};
ghost use Rattle.pbf_pass.specs.Counting.{counts_of};
ghost use Rattle.pbf_pass.specs.Judged.{fault_in};
ghost use Rattle.pbf_pass.specs.Payload.{primitive_block, lent_by};
ghost use Rattle.pbf_dense.specs.Steady.{NumbersFit};
ghost use Rattle.pbfcut.specs.Many.{AreEven, AreEvenAfter, PacksSome};
ghost use Rattle.pbfcut.specs.Wanted.{listed_entities};
ghost use Rattle.pbfcut.specs.Pick.{everything, pick_of, picks_of, picked_in, picked_by, picked_by_some, IsReadyToPack, PacksAll, PacksEach, KeepsPacker, PacksPayload, FailsToPackPayload, JudgesAndPacks};

use crate::pick_nodes::{FEW, NodesLeft, picked_run, unpicked, weight_if_light};
use crate::picker::Picker;
use osm_entity::{EntityRef, NodeRef};
use osm_pack::Packer;
use osm_ways::{Chosen, ChosenParents};
use pbf_block::{Block, Counts, Kinds, MOST_ENTITIES, Run, Runs, Unmade};
use pbf_dense::Dense;
use pbf_frame::{Drain, Feed, Frame, FrameKind, FrameReader, Stop};
use pbf_pass::Pass;
use std::alloc::Global;
use std::hash::BuildHasher;

/// Packs those entities of a payload that are picked, one after another, and counts them.
#[derive(Drop)]
pub(crate) struct EntityPacker<'a> {
    /// The allocator of what is read of a payload.
    pub(crate) alloc: Global,
    picker: Picker<'a>,
    /// The numbers of the entities that were packed.
    pub(crate) counts: Counts,
    /// The pass: `Changed` with this number says that an entity can't be written.
    pub(crate) number: u8,
}

impl<'a> EntityPacker<'a> {
    /// Of those that are picked; so many were packed before, in the pass of this number.
    pub(crate) fn new(
        alloc: Global,
        picker: Picker<'a>,
        counts: Counts,
        number: u8,
    ) -> EntityPacker<'a>
        ensures picker { result.picker ≡ picker.entry }
        ensures counts { result.counts ≡ counts }
        ensures number { result.number ≡ number }
    {
        EntityPacker {
            alloc,
            picker,
            counts,
            number,
        }
    }

    /// Packs an entity, whether it is picked or not. It is part of its callers, which know the kind.
    #[inline(always)]
    fn pack<D: Drain, S: BuildHasher>(
        &mut self,
        entity: &EntityRef<'_>,
        packer: &mut Packer<D, S>,
    ) -> Result<(), Stop>
        requires { IsReadyToPack packer.old }
        ensures { PacksEach D.Drain everything (entity_of entity.now ∷ [])
            self.old self.new packer.old packer.new result }
    {
        let Some(weight) = entity.weight_if_fits() else {
            return Err(Stop::Changed(self.number));
        };
        packer.push_weighed(entity, weight)?;
        self.counts.take(entity);
        Ok(())
    }

    /// Packs a node whose numbers are in their ranges, whether it is picked or not.
    fn pack_node<D: Drain, S: BuildHasher>(
        &mut self,
        view: &NodeRef<'_>,
        packer: &mut Packer<D, S>,
    ) -> Result<(), Stop>
        requires numbers { NumbersFit (node_of view.now) }
        requires ready { IsReadyToPack packer.old }
        ensures { PacksEach D.Drain everything (node (node_of view.now) ∷ [])
            self.old self.new packer.old packer.new result }
    {
        let Some(weight) = weight_if_light(view) else {
            return Err(Stop::Changed(self.number));
        };
        packer.push_node(view, weight)?;
        self.counts.nodes = self.counts.nodes.saturating_add(1);
        Ok(())
    }

    /// Packs an entity if it is picked.
    fn pack_entity<D: Drain, S: BuildHasher>(
        &mut self,
        entity: &EntityRef<'_>,
        packer: &mut Packer<D, S>,
    ) -> Result<(), Stop>
        requires { IsReadyToPack packer.old }
        ensures { PacksEach D.Drain (picks_of self.old.picker) (entity_of entity.now ∷ [])
            self.old self.new packer.old packer.new result }
    {
        let is_picked = self.picker.picks(entity);
        if is_picked {
            self.pack(entity, packer)
        } else {
            Ok(())
        }
    }

    /// Makes a node, and packs it if it is picked. It is a call, so that its room is cleared only here, and not for each run.
    #[inline(never)]
    fn pack_single<D: Drain, S: BuildHasher>(
        &mut self,
        unmade: &Unmade<'_>,
        packer: &mut Packer<D, S>,
    ) -> Result<(), Stop>
        requires { IsReadyToPack packer.old }
        ensures { PacksEach D.Drain (picks_of self.old.picker) (node (node_from unmade.now) ∷ [])
            self.old self.new packer.old packer.new result }
    {
        self.pack_entity(&EntityRef::Node(unmade.node()), packer)
    }

    /// The same of a relation.
    #[inline(never)]
    fn pack_relation<D: Drain, S: BuildHasher>(
        &mut self,
        unmade: &Unmade<'_>,
        packer: &mut Packer<D, S>,
    ) -> Result<(), Stop>
        requires { IsReadyToPack packer.old }
        ensures { PacksEach D.Drain (picks_of self.old.picker)
            (relation (relation_from unmade.now) ∷ [])
            self.old self.new packer.old packer.new result }
    {
        self.pack_entity(&EntityRef::Relation(unmade.relation()), packer)
    }

    /// Makes a way, and packs it, whether it is picked or not. It is a call for the same reason.
    #[inline(never)]
    fn pack_made<D: Drain, S: BuildHasher>(
        &mut self,
        unmade: &Unmade<'_>,
        packer: &mut Packer<D, S>,
    ) -> Result<(), Stop>
        requires { IsReadyToPack packer.old }
        ensures { PacksEach D.Drain everything (way (way_from unmade.now) ∷ [])
            self.old self.new packer.old packer.new result }
    {
        self.pack(&EntityRef::Way(unmade.way()), packer)
    }

    /// Packs a way if it is picked, which is made only then.
    fn pack_way<D: Drain, S: BuildHasher>(
        &mut self,
        unmade: &Unmade<'_>,
        packer: &mut Packer<D, S>,
    ) -> Result<(), Stop>
        requires { IsReadyToPack packer.old }
        ensures { PacksEach D.Drain (picks_of self.old.picker) (way (way_from unmade.now) ∷ [])
            self.old self.new packer.old packer.new result }
    {
        let is_picked = self.picker.picks_way(unmade);
        if is_picked {
            self.pack_made(unmade, packer)
        } else {
            Ok(())
        }
    }

    /// Packs nodes that come after one that was packed: as many together as are picked and may wait with it in its block, if all that are
    /// still to come are alike. It looks up no more ids than a block has entities, since it is called again for each block.
    fn pack_many<D: Drain, S: BuildHasher>(
        &mut self,
        like: &NodeRef<'_>,
        left: &mut NodesLeft<'_>,
        packer: &mut Packer<D, S>,
    ) -> Result<(), Stop>
        requires even { AreEvenAfter (node_of like.now) left.old.alike (dense_left left.old.nodes) }
        requires ready { IsReadyToPack packer.old }
        ensures packs { PacksSome D.Drain (dense_left left.old.nodes) (dense_left left.new.nodes)
            self.old self.new packer.old packer.new result }
        ensures even { OnOk result (AreEven left.new.alike (dense_left left.new.nodes)) }
    {
        let most = picked_run(&left.nodes, &mut self.picker, left.alike.min(MOST_ENTITIES));
        if most < FEW {
            return Ok(());
        }
        let count = packer.push_nodes(like, &mut left.nodes, most)?;
        left.alike -= count;
        self.counts.nodes = self.counts.nodes.saturating_add(count as u64);
        Ok(())
    }

    /// Packs those nodes of a dense message that are picked. After one that is not, all up to the next that is are skipped together, and
    /// not made; if there is none, nothing more is read. After one that is, those that follow are taken over together, if they can be.
    fn pack_nodes<D: Drain, S: BuildHasher>(
        &mut self,
        dense: &Dense<'_>,
        packer: &mut Packer<D, S>,
    ) -> Result<(), Stop>
        requires { IsReadyToPack packer.old }
        ensures { PacksEach D.Drain (picks_of self.old.picker) (map node (dense_left dense.now))
            self.old self.new packer.old packer.new result }
    {
        let mut left = NodesLeft::of(dense);
        let mut place = None;
        'nodes: loop {
            left.test_if_picked(&mut self.picker);
            left.next_in(&mut place);
            let Some(view) = &place else {
                break;
            };
            if self.picker.picks_id(view.id()) {
                self.pack_node(view, packer)?;
                self.pack_many(view, &mut left, packer)?;
            } else {
                let Some(ahead) = unpicked(&left.nodes, &mut self.picker) else {
                    return Ok(());
                };
                left.pass_to(&ahead);
            }
        }
        Ok(())
    }

    /// Packs what is picked of a run.
    fn pack_run<D: Drain, S: BuildHasher>(
        &mut self,
        run: &Run<'_>,
        packer: &mut Packer<D, S>,
    ) -> Result<(), Stop>
        requires { IsReadyToPack packer.old }
        ensures { PacksEach D.Drain (picks_of self.old.picker) (run_entities run.now)
            self.old self.new packer.old packer.new result }
    {
        match run {
            Run::Nothing => Ok(()),
            Run::Node(unmade) => self.pack_single(unmade, packer),
            Run::Way(unmade) => self.pack_way(unmade, packer),
            Run::Relation(unmade) => self.pack_relation(unmade, packer),
            Run::Dense(unmade) => self.pack_nodes(&unmade.nodes(), packer),
        }
    }

    /// Packs what is picked of the entities of these runs, one by one.
    pub(crate) fn pack_runs<D: Drain, S: BuildHasher>(
        &mut self,
        runs: Runs<'_>,
        packer: &mut Packer<D, S>,
    ) -> Result<(), Stop>
        requires { IsReadyToPack packer.old }
        ensures { PacksEach D.Drain (picks_of self.old.picker) (joined_runs (runs_left runs.entry))
            self.old self.new packer.old packer.new result }
    {
        for run in runs {
            self.pack_run(&run, packer)?;
        }
        Ok(())
    }

    /// The same of runs that lie in a list.
    pub(crate) fn pack_wanted<D: Drain, S: BuildHasher>(
        &mut self,
        wanted: &[Run<'_>],
        packer: &mut Packer<D, S>,
    ) -> Result<(), Stop>
        requires { IsReadyToPack packer.old }
        ensures { PacksEach D.Drain (picks_of self.old.picker) (listed_entities wanted.now)
            self.old self.new packer.old packer.new result }
    {
        for run in wanted {
            self.pack_run(run, packer)?;
        }
        Ok(())
    }

    /// Judges a PrimitiveBlock, and packs what is picked of it. Each entity of a block without a fault can be written.
    fn pack_block<D: Drain, S: BuildHasher>(
        &mut self,
        frame: &Frame<'_>,
        packer: &mut Packer<D, S>,
    ) -> Result<(), Stop>
        requires none { self.old.counts ≡ counts_of [] }
        requires ready { IsReadyToPack packer.old }
        ensures packed { let p = primitive_block frame.now.payload_at frame.now.payload.now in
            OnOk result (PacksAll D.Drain (fault_in p) (picked_in (picks_of self.old.picker) p)
            packer.old packer.new) }
        ensures counted { OnOk result (self.new.counts ≡ counts_of (picked_in
            (picks_of self.old.picker)
            (primitive_block frame.now.payload_at frame.now.payload.now))) }
        ensures stopped { IfErr result (FailsToPackPayload D.Drain (picks_of self.old.picker)
            (primitive_block frame.now.payload_at frame.now.payload.now) packer.old packer.new) }
        ensures keeps { KeepsPacker D.Drain packer.old packer.new }
    {
        let block = Block::read(self.alloc, frame.payload, frame.payload_at)?;
        self.pack_runs(block.runs_among(Kinds::all()), packer)?;
        Ok(())
    }

    /// Judges the payload of a frame, packs what is picked of it, and takes its header or the numbers of these entities.
    fn pack_payload<D: Drain, S: BuildHasher>(
        &mut self,
        frame: &Frame<'_>,
        pass: &mut Pass,
        packer: &mut Packer<D, S>,
    ) -> Result<(), Stop>
        requires none { self.old.counts ≡ counts_of [] }
        requires ready { IsReadyToPack packer.old }
        ensures packed { OnOk result (PacksPayload D.Drain (picks_of self.old.picker)
            (lent_by frame.now) packer.old packer.new pass.old pass.new) }
        ensures stopped { IfErr result (FailsToPackPayload D.Drain (picks_of self.old.picker)
            (lent_by frame.now) packer.old packer.new) }
        ensures keeps { KeepsPacker D.Drain packer.old packer.new }
    {
        match frame.kind {
            FrameKind::Header => pass.take_header(self.alloc, frame.payload, frame.payload_at)?,
            FrameKind::Data => {
                self.pack_block(frame, packer)?;
                pass.counts.add(self.counts);
            }
            FrameKind::Other => {}
        }
        Ok(())
    }
}

/// Packs the next frame's entities that are picked, in order, and counts these; false at the end of an input that had its header.
/// It writes no header: the caller must prove that one was put.
///
/// `Refused` names the first fault of the frame, and then nothing went out; on another stop, of a frame without a fault, a
/// prefix of its entities may have gone out. After a stop the reader and the packer may only be dropped or taken apart, and
/// the pass may only be dropped. A spent packer returns its stop again, before the reader is called.
pub fn step_pack<F: Feed, D: Drain, S: BuildHasher>(
    alloc: Global,
    reader: &mut FrameReader<F>,
    pass: &mut Pass,
    chosen: Option<&Chosen>,
    packer: &mut Packer<D, S>,
) -> Result<bool, Stop>
    requires { has_header packer.old ≡ true }
    // The next frame was judged, and what is picked of it was packed; or the step stopped. Reader and packer hold at most so many bytes then.
    ensures steps { JudgesAndPacks F.Feed reader.old reader.new D.Drain (pick_of chosen.entry)
        packer.old packer.new pass.old pass.new result }
{
    packer.held_is_bounded();
    if let Some(stop) = packer.stop() {
        return Err(stop);
    }
    let Some(frame) = reader.next()? else {
        return Ok(false);
    };
    let mut entities = EntityPacker::new(alloc, Picker::of(chosen), Counts::none(), 0);
    let outcome = entities.pack_payload(&frame, pass, packer);
    packer.held_is_bounded();
    outcome?;
    Ok(true)
}

/// [`step_pack`] of the complete-ways extract, or of all entities.
pub fn step_write<F: Feed, D: Drain, S: BuildHasher>(
    alloc: Global,
    reader: &mut FrameReader<F>,
    pass: &mut Pass,
    chosen: Option<&Chosen>,
    packer: &mut Packer<D, S>,
) -> Result<bool, Stop>
    requires { has_header packer.old ≡ true }
    ensures steps { JudgesAndPacks F.Feed reader.old reader.new D.Drain
        (picked_by_some (option_map (λ c. c.now) chosen.entry))
        packer.old packer.new pass.old pass.new result }
{
    step_pack(alloc, reader, pass, chosen, packer)
}

/// [`step_pack`] of the extract with all parents.
pub fn step_write_parents<F: Feed, D: Drain, S: BuildHasher>(
    alloc: Global,
    reader: &mut FrameReader<F>,
    pass: &mut Pass,
    chosen: &ChosenParents,
    packer: &mut Packer<D, S>,
) -> Result<bool, Stop>
    requires { has_header packer.old ≡ true }
    ensures steps { JudgesAndPacks F.Feed reader.old reader.new D.Drain (picked_by chosen.now)
        packer.old packer.new pass.old pass.new result }
{
    step_pack(alloc, reader, pass, Some(chosen.chosen()), packer)
}
