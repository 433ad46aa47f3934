//! A pass over a file: what it takes and gathers frame by frame, and the loop that judges the whole file.

ghost use Rattle.std.specs.Prelude.{◌≡◌, ◌≤◌, ◌+◌, [], ◌∷◌, false, None, Some, Err, IfOk, OnOk, length, map};
ghost use Rattle.std.specs.List.{fold};
ghost use Rattle.osm_entity.specs.Entity.{EntitySpec, node, relation, way};
ghost use Rattle.osm_entity.specs.Views.{entity_of};
ghost use Rattle.osm_ways.specs.Seen.{seen_refs, seen_way};
ghost use Rattle.pbf_block.specs.Kinds.{is_among};
ghost use Rattle.pbf_block.specs.PrimitiveBlock.{entities};
ghost use Rattle.pbf_block.specs.Runs.{joined_runs, node_from, nodes_from, relation_from, run_entities, runs_left, way_from};
ghost use Rattle.pbf_dense.specs.Cursors.{dense_left};
ghost use Rattle.pbf_wire.specs.declared.fault.Fault.{Fault};
ghost use Rattle.pbf_wire.specs.declared.fault.ReadFault.TheVariants.{Refused};
ghost use Rattle.pbf_pass.specs.Judged.{fault_in, judged_file};
ghost use Rattle.pbf_pass.specs.Payload.{header_block, primitive_block, lent_by};
ghost use Rattle.pbf_pass.specs.Pass.{IsFresh, TakesPayload, TakesAll, TakesFrame, CountsFrame, TakesFile, FailsToJudge, as_it_was, with_node, with_way, with_relation, Steps};
ghost use Rattle.pbf_pass.specs.Given.{GaveFile};
ghost use Rattle.pbf_pass.specs.Hashing.{IsLength, mark_by};
ghost use Rattle.pbf_wire.specs.declared.limits.TheConstants.{OFFSET_LIMIT};
ghost use Rattle.pbf_pass.specs.Refused.{EndsJudging};

use crate::receipt::{Halt, Passes};
use crate::visit::{FileRead, Visit, pass_over, step};
use osm_entity::EntityRef;
use osm_ways::{NodePhase, RelationPhase, SeenWay, WayPhase};
use pbf_block::{Block, Counts, Kinds, Run, Runs, Unmade};
use pbf_dense::Dense;
use pbf_frame::{Feed, Frame, FrameKind, FrameReader, Stop};
use pbf_header::Header;
use pbf_wire::ReadFault;
use std::alloc::{AllocError, Global};

/// What a pass gathers of a file's entities, besides its header and their numbers.
pub trait Gather {
    /// What it is with an entity more.
    ghost gathered: { Self → EntitySpec → Self };

    /// Which kinds of entities matter: those of another kind leave it as it is.
    fn kinds() -> Kinds
        ensures { (so_far : Self) (e : EntitySpec) → is_among result e ≡ false
            → gathered so_far e ≡ so_far };

    /// Gathers an entity. If memory is refused, it may only be dropped.
    fn gather(&mut self, entity: &EntityRef<'_>) -> Result<(), AllocError>
        ensures { OnOk result (self.new ≡ gathered self.old (entity_of entity.now)) };

    /// Gathers a way that is not made yet. If memory is refused, it may only be dropped.
    fn gather_way(&mut self, unmade: &Unmade<'_>) -> Result<(), AllocError>
        ensures { OnOk result (self.new ≡ gathered self.old (way (way_from unmade.now))) };

    /// Gathers the nodes of a dense message. If memory is refused, it may only be dropped.
    fn gather_dense(&mut self, dense: &Dense<'_>) -> Result<(), AllocError>
        ensures { OnOk result
            (self.new ≡ fold gathered self.old (map node (dense_left dense.now))) };
}

/// Gathers nothing.
#[derive(Drop)]
pub struct Nothing;

impl Gather for Nothing {
    ghost gathered = { as_it_was };

    fn kinds() -> Kinds {
        Kinds {
            nodes: false,
            ways: false,
            relations: false,
        }
    }

    fn gather(&mut self, _entity: &EntityRef<'_>) -> Result<(), AllocError> {
        Ok(())
    }

    fn gather_way(&mut self, _unmade: &Unmade<'_>) -> Result<(), AllocError> {
        Ok(())
    }

    #[tactic(auto, using(crate::proofs::GatherLemmas::nodes_left_out))]
    fn gather_dense(&mut self, _dense: &Dense<'_>) -> Result<(), AllocError> {
        Ok(())
    }
}

impl Gather for WayPhase {
    ghost gathered = { with_way };

    fn kinds() -> Kinds {
        Kinds {
            nodes: false,
            ways: true,
            relations: false,
        }
    }

    fn gather(&mut self, entity: &EntityRef<'_>) -> Result<(), AllocError> {
        match entity {
            EntityRef::Way(way) => self.take_way(way),
            EntityRef::Node(_) | EntityRef::Relation(_) => Ok(()),
        }
    }

    fn gather_way(&mut self, unmade: &Unmade<'_>) -> Result<(), AllocError> {
        self.take_refs(seen(unmade))
    }

    #[tactic(auto, using(crate::proofs::GatherLemmas::ways_of_nodes))]
    fn gather_dense(&mut self, _dense: &Dense<'_>) -> Result<(), AllocError> {
        Ok(())
    }
}

impl Gather for RelationPhase {
    ghost gathered = { with_relation };

    fn kinds() -> Kinds {
        Kinds {
            nodes: false,
            ways: false,
            relations: true,
        }
    }

    fn gather(&mut self, entity: &EntityRef<'_>) -> Result<(), AllocError> {
        match entity {
            EntityRef::Relation(relation) => self.take_relation(relation),
            EntityRef::Node(_) | EntityRef::Way(_) => Ok(()),
        }
    }

    fn gather_way(&mut self, _unmade: &Unmade<'_>) -> Result<(), AllocError> {
        Ok(())
    }

    #[tactic(auto, using(crate::proofs::GatherLemmas::relations_of_nodes))]
    fn gather_dense(&mut self, _dense: &Dense<'_>) -> Result<(), AllocError> {
        Ok(())
    }
}

/// What counts of a way that is not made yet.
pub(crate) fn seen<'a>(unmade: &Unmade<'a>) -> SeenWay<'a>
    ensures { seen_refs result ≡ seen_way (way_from unmade.now) }
{
    let (id, refs) = unmade.id_and_refs();
    SeenWay { id, refs }
}

/// Makes a node, and gathers it. It is a call, so that its room is cleared only here, and not for each run.
#[inline(never)]
fn gather_node<G: Gather>(unmade: &Unmade<'_>, gathering: &mut G) -> Result<(), AllocError>
    ensures { OnOk result
        (gathering.new ≡ G.gathered gathering.old (node (node_from unmade.now))) }
{
    gathering.gather(&EntityRef::Node(unmade.node()))
}

/// The same of a relation.
#[inline(never)]
fn gather_relation<G: Gather>(unmade: &Unmade<'_>, gathering: &mut G) -> Result<(), AllocError>
    ensures { OnOk result
        (gathering.new ≡ G.gathered gathering.old (relation (relation_from unmade.now))) }
{
    gathering.gather(&EntityRef::Relation(unmade.relation()))
}

/// The same of the nodes of a dense message.
#[inline(never)]
fn gather_nodes<G: Gather>(unmade: &Unmade<'_>, gathering: &mut G) -> Result<(), AllocError>
    ensures { OnOk result
        (gathering.new ≡ fold G.gathered gathering.old (map node (nodes_from unmade.now))) }
{
    gathering.gather_dense(&unmade.nodes())
}

/// Gathers the entities of a run.
fn gather_run<G: Gather>(run: &Run<'_>, gathering: &mut G) -> Result<(), AllocError>
    ensures { OnOk result (gathering.new ≡ fold G.gathered gathering.old (run_entities run.now)) }
{
    match run {
        Run::Nothing => Ok(()),
        Run::Node(unmade) => gather_node(unmade, gathering),
        Run::Way(unmade) => gathering.gather_way(unmade),
        Run::Relation(unmade) => gather_relation(unmade, gathering),
        Run::Dense(unmade) => gather_nodes(unmade, gathering),
    }
}

/// Gathers the entities of runs.
pub(crate) fn gather_runs<G: Gather>(runs: Runs<'_>, gathering: &mut G) -> Result<(), AllocError>
    ensures { OnOk result
        (gathering.new ≡ fold G.gathered gathering.old (joined_runs (runs_left runs.entry))) }
{
    for run in runs {
        gather_run(&run, gathering)?;
    }
    Ok(())
}

/// Gathers those entities of a block that matter.
fn gather_entities<G: Gather>(block: &Block<'_>, gathering: &mut G) -> Result<(), AllocError>
    ensures { OnOk result (gathering.new
        ≡ fold G.gathered gathering.old (entities block.now.at block.now.payload.now)) }
{
    gather_runs(block.runs_among(G::kinds()), gathering)?;
    Ok(())
}

/// What lasts from frame to frame of a pass.
#[derive(Debug, Drop)]
pub struct Pass {
    /// The header, once its frame was read.
    pub header: Option<Header>,
    /// Where in the file the HeaderBlock begins; 0 before it.
    pub header_at: u64,
    /// The entities read so far.
    pub counts: Counts,
}

impl Pass {
    /// A pass that has read no frame.
    pub fn new() -> Pass
        ensures { IsFresh result }
    {
        Pass {
            header: None,
            header_at: 0,
            counts: Counts::none(),
        }
    }

    /// Takes the header of a frame, or counts its entities and gathers them. Refuses the first fault of its payload.
    fn take<G: Gather>(
        &mut self,
        alloc: Global,
        frame: &Frame<'_>,
        gathering: &mut G,
    ) -> Result<(), ReadFault>
        ensures taken { OnOk result (TakesAll G.gathered (lent_by frame.now)
            self.old self.new gathering.old gathering.new) }
        ensures refused { (fault : Fault) → result ≡ Err (Refused fault)
            → fault_in (lent_by frame.now) ≡ Some fault }
    {
        match frame.kind {
            FrameKind::Header => self.take_header(alloc, frame.payload, frame.payload_at)?,
            FrameKind::Data => self.take_block(alloc, frame, gathering)?,
            FrameKind::Other => {}
        }
        Ok(())
    }

    /// Takes the header of a HeaderBlock that has no fault. `Refused` names its first fault.
    pub fn take_header(&mut self, alloc: Global, payload: &[u8], at: u64) -> Result<(), ReadFault>
        requires { at + length payload.now ≤ OFFSET_LIMIT }
        ensures taken { OnOk result
            (TakesPayload (header_block at payload.now) self.old self.new) }
        ensures sound { OnOk result (fault_in (header_block at payload.now) ≡ None) }
        ensures refused { (fault : Fault) → result ≡ Err (Refused fault)
            → fault_in (header_block at payload.now) ≡ Some fault }
    {
        self.header = Some(Header::read(alloc, payload, at)?);
        self.header_at = at;
        Ok(())
    }

    /// Counts the entities of a PrimitiveBlock, and gathers them.
    fn take_block<G: Gather>(
        &mut self,
        alloc: Global,
        frame: &Frame<'_>,
        gathering: &mut G,
    ) -> Result<(), ReadFault>
        ensures taken { let p = primitive_block frame.now.payload_at frame.now.payload.now in
            OnOk result (TakesAll G.gathered p self.old self.new gathering.old gathering.new) }
        ensures refused { (fault : Fault) → result ≡ Err (Refused fault) → fault_in
            (primitive_block frame.now.payload_at frame.now.payload.now) ≡ Some fault }
    {
        let block = Block::read(alloc, frame.payload, frame.payload_at)?;
        gather_entities(&block, gathering)?;
        self.counts.add(block.counts());
        Ok(())
    }
}

/// Judges frames, and takes and gathers what they hold.
#[derive(Drop)]
pub struct Judging<'a, G> {
    /// What lasts from frame to frame.
    pub pass: &'a mut Pass,
    /// What the entities are gathered in.
    pub gathering: &'a mut G,
}

impl<G: Gather> Visit for Judging<'_, G> {
    ghost took = { λ old f new. TakesFrame G.gathered old.pass.now new.pass.now
        old.gathering.now new.gathering.now f };

    ghost failed = { λ _ f _ stop. FailsToJudge f stop };

    ghost lender = { λ v. v.pass.ghost_name ∷ v.gathering.ghost_name ∷ [] };

    fn visit(&mut self, alloc: Global, frame: &Frame<'_>) -> Result<(), Stop> {
        self.pass.take(alloc, frame, self.gathering)?;
        Ok(())
    }
}

/// Takes the next frame of a pass: its header, or the numbers of its entities, which are gathered; false at the end of an input
/// that had its header.
///
/// `Refused` names the first fault of the frame, phases of its payload too. After a stop the reader, the pass and what was gathered
/// may only be dropped, or the reader taken apart.
pub fn step_gather<F: Feed, G: Gather>(
    alloc: Global,
    reader: &mut FrameReader<F>,
    pass: &mut Pass,
    gathering: &mut G,
) -> Result<bool, Stop>
    // On `true` exactly the next frame's bytes are gone, its place has risen, it has no fault of any phase, and the pass took its header or
    // counts its entities, which were gathered in order. `Refused` names its first fault. A reader at its end returns `false`, a spent one
    // its stop, and nothing else changes. Whatever is returned, the place is at most 2^62, and the reader holds at most 33,620,990 bytes.
    ensures steps { Steps F.Feed reader.old reader.new
        (TakesFrame G.gathered pass.old pass.new gathering.old gathering.new)
        FailsToJudge ((pass.new ≡ pass.old) × (gathering.new ≡ gathering.old)) result }
{
    step(alloc, reader, &mut Judging { pass, gathering })
}

/// Takes the next frame of a pass: its header, or the numbers of its entities; false at the end of an input that had its header.
/// It is [`step_gather`] of nothing.
pub fn step_count<F: Feed>(
    alloc: Global,
    reader: &mut FrameReader<F>,
    pass: &mut Pass,
) -> Result<bool, Stop>
    ensures steps { Steps F.Feed reader.old reader.new (CountsFrame pass.old pass.new)
        FailsToJudge (pass.new ≡ pass.old) result }
{
    step_gather(alloc, reader, pass, &mut Nothing)
}

/// Like [`step_count`], and takes the nodes of the frame in order. After a stop the phase too may only be dropped.
pub fn step_nodes<F: Feed>(
    alloc: Global,
    reader: &mut FrameReader<F>,
    pass: &mut Pass,
    phase: &mut NodePhase,
) -> Result<bool, Stop>
    ensures steps { Steps F.Feed reader.old reader.new
        (TakesFrame with_node pass.old pass.new phase.old phase.new)
        FailsToJudge ((pass.new ≡ pass.old) × (phase.new ≡ phase.old)) result }
{
    step_gather(alloc, reader, pass, phase)
}

/// Like [`step_count`], and takes the ways of the frame in order. After a stop the phase too may only be dropped.
pub fn step_ways<F: Feed>(
    alloc: Global,
    reader: &mut FrameReader<F>,
    pass: &mut Pass,
    phase: &mut WayPhase,
) -> Result<bool, Stop>
    ensures steps { Steps F.Feed reader.old reader.new
        (TakesFrame with_way pass.old pass.new phase.old phase.new)
        FailsToJudge ((pass.new ≡ pass.old) × (phase.new ≡ phase.old)) result }
{
    step_gather(alloc, reader, pass, phase)
}

/// Like [`step_count`], and takes the relations of the frame in order. After a stop the phase too may only be dropped.
pub fn step_relations<F: Feed>(
    alloc: Global,
    reader: &mut FrameReader<F>,
    pass: &mut Pass,
    phase: &mut RelationPhase,
) -> Result<bool, Stop>
    ensures steps { Steps F.Feed reader.old reader.new
        (TakesFrame with_relation pass.old pass.new phase.old phase.new)
        FailsToJudge ((pass.new ≡ pass.old) × (phase.new ≡ phase.old)) result }
{
    step_gather(alloc, reader, pass, phase)
}

/// What a pass over a whole file without a fault reports.
#[derive(Drop)]
pub struct Judged {
    /// The file's header, and the numbers of its entities.
    pub pass: Pass,
    /// How many bytes it has.
    pub count: u64,
    /// The digest of its bytes by the check of the passes.
    pub digest: [u8; 32],
}

/// Judges a whole file, and gathers its entities: `check`, and the first pass of the other calls. Their later passes judge nothing.
///
/// `Refused` has the first fault of the file, of any phase, with how many bytes were read and their digest. Reads each byte once, to
/// the file's end if it returns `Ok`, and holds one frame at a time. After a halt what was gathered may only be dropped.
pub fn judge<F: Feed, G: Gather>(
    passes: Passes,
    feed: &mut F,
    gathering: &mut G,
) -> Result<Judged, Halt>
    // The feed gave a file, of this digest by the check, to its end. It has no fault, the pass has its header and the counts of its
    // entities, and these were gathered in order. `count` is the number of its bytes, or 2^64 - 1 if it has more.
    ensures judged { IfOk result (λ told. GaveFile F.Feed feed.old feed.new
        (mark_by passes.check told.digest) (λ file. IsLength told.count file
        × TakesFile G.gathered (judged_file (Some file)) gathering.old gathering.new told.pass)) }
    // However it ends: `refused` says what is refused, of the bytes that were read; `stops` why it stops; and `keeps` that it keeps its feed.
    ensures ends { EndsJudging F.Feed feed.old feed.new passes.check result }
{
    let mut pass = Pass::new();
    let mut judging = Judging {
        pass: &mut pass,
        gathering,
    };
    let FileRead { count, digest, .. } = pass_over(passes, feed, &mut judging)?;
    Ok(Judged {
        pass,
        count,
        digest,
    })
}
