//! A pass after the one that judged the file. It reads frames and gathers their entities, and judges no payload: that its bytes are
//! those of the first pass is seen by their digest, at the end.

ghost use Rattle.std.specs.Prelude.{◌≡◌, [], ◌∷◌, Some, IfOk, IfErr, OnOk};
ghost use Rattle.pbf_pass.specs.Unjudged.{GathersPayload, GathersFrame, GathersFile, GathersSome, StopsAtPayload, StopsAtFrame, StopsUnjudged, ReadsFaulty};
ghost use Rattle.pbf_pass.specs.Given.{GaveFile};
ghost use Rattle.pbf_pass.specs.Hashing.{mark_by};
ghost use Rattle.pbf_pass.specs.Judged.{judged_file};
ghost use Rattle.pbf_pass.specs.Payload.{primitive_block, lent_by};
ghost use Rattle.pbf_pass.specs.Stops.{ReadFailed};
ghost use Rattle.pbf_frame.specs.Keeps.{KeepsFeed};
ghost use Rattle.pbf_pass.specs.Pass.{Steps};

use crate::pass::{Gather, gather_runs};
use crate::receipt::Passes;
use crate::visit::{Visit, pass_over, step};
use pbf_block::UnjudgedBlock;
use pbf_frame::{Feed, Frame, FrameKind, FrameReader, Stop};
use std::alloc::Global;

/// Gathers those entities of a PrimitiveBlock that matter, if it has no fault, in a pass of this number.
fn gather_block<G: Gather>(
    alloc: Global,
    frame: &Frame<'_>,
    gathering: &mut G,
    number: u8,
) -> Result<(), Stop>
    ensures gathered { OnOk result (GathersPayload G.gathered gathering.old gathering.new
        (primitive_block frame.now.payload_at frame.now.payload.now)) }
    ensures some { OnOk result (GathersSome G.gathered gathering.old gathering.new) }
    ensures stopped { IfErr result (StopsAtPayload number ⊥
        (primitive_block frame.now.payload_at frame.now.payload.now)) }
{
    let Some(block) = UnjudgedBlock::open(alloc, frame.payload, frame.payload_at)? else {
        return Err(Stop::Changed(number));
    };
    gather_runs(block.runs_among(G::kinds()), gathering)?;
    Ok(())
}

/// Gathers the entities of a frame's payload, if it has no fault, in a pass of this number.
fn gather_payload<G: Gather>(
    alloc: Global,
    frame: &Frame<'_>,
    gathering: &mut G,
    number: u8,
) -> Result<(), Stop>
    ensures gathered { OnOk result (GathersPayload G.gathered gathering.old gathering.new
        (lent_by frame.now)) }
    ensures some { OnOk result (GathersSome G.gathered gathering.old gathering.new) }
    ensures stopped { IfErr result (StopsAtPayload number ⊥ (lent_by frame.now)) }
{
    match frame.kind {
        FrameKind::Data => gather_block(alloc, frame, gathering, number),
        FrameKind::Header | FrameKind::Other => Ok(()),
    }
}

/// Gathers the entities of frames that were judged in a pass before.
///
/// The reader judges frames, but nothing judges their payloads: of a frame that has a fault anything may be gathered, or `Changed`
/// with the number is returned.
#[derive(Drop)]
pub struct Later<'a, G> {
    /// What the entities are gathered in.
    pub gathering: &'a mut G,
    /// The pass.
    pub number: u8,
}

impl<G: Gather> Visit for Later<'_, G> {
    ghost took = { λ old f new. GathersFrame G.gathered old.gathering.now new.gathering.now f
        × (new.number ≡ old.number)
        × GathersSome G.gathered old.gathering.now new.gathering.now };

    ghost failed = { λ old f _ stop. StopsAtFrame old.number ⊥ f stop };

    ghost lender = { λ v. v.gathering.ghost_name ∷ [] };

    fn visit(&mut self, alloc: Global, frame: &Frame<'_>) -> Result<(), Stop> {
        gather_payload(alloc, frame, self.gathering, self.number)
    }
}

/// Gathers the entities of the next frame in a pass of this number, after the one that judged the file; false at the end of an input
/// that had its header.
///
/// The reader judges frames, but nothing judges their payloads: of a frame that has a fault anything may be gathered, or `Changed`
/// with the number is returned. After a stop the reader and what was gathered may only be dropped, or the reader taken apart.
pub fn step_unjudged<F: Feed, G: Gather>(
    alloc: Global,
    reader: &mut FrameReader<F>,
    gathering: &mut G,
    number: u8,
) -> Result<bool, Stop>
    // On `true` exactly the next frame's bytes are gone, and if it has no fault its entities were gathered in order. `Changed` has the number
    // of the pass, and comes only if the frame has a fault. A reader at its end returns `false`, a spent one its stop, and nothing is
    // gathered. Whatever is returned, the place is at most 2^62, and the reader holds at most 33,620,990 bytes.
    ensures steps { Steps F.Feed reader.old reader.new
        (GathersFrame G.gathered gathering.old gathering.new)
        (StopsAtFrame number ⊥) (gathering.new ≡ gathering.old) result }
{
    step(alloc, reader, &mut Later { gathering, number })
}

/// Gathers the entities of a whole file in a pass of this number, after the one that judged the file, and returns the digest of its
/// bytes.
///
/// What was gathered is specified if the digest is that of the bytes which were judged. `Refused` and `Changed` say that the
/// file has a fault, so that its bytes are others. Reads each byte once, to the file's end if it returns `Ok`, and holds one frame
/// at a time. After a stop what was gathered may only be dropped.
pub fn gather_unjudged<F: Feed, G: Gather>(
    passes: Passes,
    feed: &mut F,
    gathering: &mut G,
    number: u8,
) -> Result<[u8; 32], Stop>
    // The feed gave a file, of this digest by the check, to its end; if it has no fault, its entities were gathered in order.
    ensures gathered { IfOk result (λ digest. GaveFile F.Feed feed.old feed.new
        (mark_by passes.check digest) (λ file. GathersFile G.gathered (judged_file (Some file))
        gathering.old gathering.new)) }
    // Whatever the file is, what was gathered is what there was before, with some entities added.
    ensures some { OnOk result (GathersSome G.gathered gathering.old gathering.new) }
    // `Refused` and `Changed` come only if what the feed gave has a fault, whatever follows it (or by itself, if the feed was at its end).
    ensures faulty { IfErr result (ReadsFaulty F.Feed feed.old feed.new) }
    // `Refused`, and `Changed` with the number of the pass, come only for a file that has a fault, and `Read` only if the feed's count of
    // failures rose; `Write` never comes.
    ensures stops { IfErr result (StopsUnjudged number (judged_file (F.remaining feed.old))
        (ReadFailed F.Feed feed.old feed.new) ⊥) }
    // The feed keeps its references, and its count of failures doesn't fall.
    ensures keeps { KeepsFeed F.Feed feed.old feed.new }
{
    let mut later = Later { gathering, number };
    Ok(pass_over(passes, feed, &mut later)?.digest)
}
