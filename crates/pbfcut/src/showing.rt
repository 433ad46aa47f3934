//! `show`: a line for each field of the header and for each entity.

ghost use Rattle.std.specs.Prelude.{[], ◌∷◌, ◌≡◌, Some, IfOk, IfErr, OnOk, OnErr};
ghost use Rattle.std.specs.List.{flat_map};
ghost use Rattle.osm_entity.specs.Views.{entity_of};
ghost use Rattle.pbf_block.specs.Runs.{entities_left};
ghost use Rattle.osm_text.specs.EntityText.{entity_line};
ghost use Rattle.pbf_pass.specs.Given.{GaveFile, Took};
ghost use Rattle.pbf_pass.specs.Hashing.{mark_by};
ghost use Rattle.pbf_pass.specs.Judged.{judged_file};
ghost use Rattle.pbf_pass.specs.Pass.{CountsFile};
ghost use Rattle.pbf_pass.specs.Payload.{header_block, primitive_block, lent_by};
ghost use Rattle.pbfcut.specs.Repeat.{SameDigest};
ghost use Rattle.pbfcut.specs.Showing.{Shown, ShowsFront, WritesLines, WritesPayload, ShowsNext, FailsToShowNext, ShowsAgain};
ghost use Rattle.pbfcut.specs.Calls.{drained, fed, StopsPasses};
ghost use Rattle.pbfcut.specs.Ends.{EndsPasses};

use crate::repeat::LaterPass;
use osm_entity::EntityRef;
use osm_text::{put_entity, put_header};
use pbf_block::{Block, Counts, Entities};
use pbf_frame::{Drain, Feed, Frame, FrameKind, Stop, write_all};
use pbf_header::Header;
use pbf_pass::{Halt, InputReceipt, Nothing, PassCheck, Passes, Visit, judge, pass_over};
use std::alloc::Global;

/// Writes lines into a drain.
#[derive(Drop)]
struct LineWriter {
    /// What a line is put together in.
    text: Vec<u8>,
    /// Whether times are written as dates.
    dates: bool,
}

impl LineWriter {
    /// Writes the line of an entity.
    fn write_entity<D: Drain>(&mut self, entity: &EntityRef<'_>, drain: &mut D) -> Result<(), Stop>
        ensures { WritesLines D.Drain (entity_line self.old.dates (entity_of entity.now))
            self.old self.new drain.old drain.new result }
    {
        self.text.clear();
        put_entity(&mut self.text, entity, self.dates)?;
        write_all(drain, &self.text)?;
        Ok(())
    }

    /// Writes the lines of entities.
    fn write_entities<D: Drain>(
        &mut self,
        entities: Entities<'_>,
        drain: &mut D,
    ) -> Result<(), Stop>
        ensures { WritesLines D.Drain
            (flat_map (entity_line self.old.dates) (entities_left entities.entry))
            self.old self.new drain.old drain.new result }
    {
        for entity in entities {
            self.write_entity(&entity, drain)?;
        }
        Ok(())
    }

    /// Judges a HeaderBlock, and writes its lines.
    fn write_header<D: Drain>(
        &mut self,
        alloc: Global,
        frame: &Frame<'_>,
        drain: &mut D,
    ) -> Result<(), Stop>
        ensures { WritesPayload D.Drain (header_block frame.now.payload_at frame.now.payload.now)
            self.old self.new drain.old drain.new result }
    {
        let header = Header::read(alloc, frame.payload, frame.payload_at)?;
        self.text.clear();
        put_header(&mut self.text, &header)?;
        write_all(drain, &self.text)?;
        Ok(())
    }

    /// Judges a PrimitiveBlock, and writes the lines of its entities.
    fn write_block<D: Drain>(
        &mut self,
        alloc: Global,
        frame: &Frame<'_>,
        drain: &mut D,
    ) -> Result<(), Stop>
        ensures { WritesPayload D.Drain (primitive_block frame.now.payload_at frame.now.payload.now)
            self.old self.new drain.old drain.new result }
    {
        let block = Block::read(alloc, frame.payload, frame.payload_at)?;
        self.write_entities(block.entities(), drain)?;
        Ok(())
    }

    /// Judges the payload of a frame, and writes its lines. Nothing is written of one that has a fault.
    fn write_payload<D: Drain>(
        &mut self,
        alloc: Global,
        frame: &Frame<'_>,
        drain: &mut D,
    ) -> Result<(), Stop>
        ensures { WritesPayload D.Drain (lent_by frame.now)
            self.old self.new drain.old drain.new result }
    {
        match frame.kind {
            FrameKind::Header => self.write_header(alloc, frame, drain),
            FrameKind::Data => self.write_block(alloc, frame, drain),
            FrameKind::Other => Ok(()),
        }
    }
}

/// Judges frames, and writes the text of what they hold.
#[derive(Drop)]
struct Showing<'a, D> {
    lines: &'a mut LineWriter,
    drain: &'a mut D,
}

impl<D: Drain> Visit for Showing<'_, D> {
    ghost took = { λ old f new. ShowsNext D.Drain old.lines.now.dates old.drain.now new.drain.now f
        × (new.lines.now.dates ≡ old.lines.now.dates) };

    ghost failed = { λ old f new stop. FailsToShowNext D.Drain old.lines.now.dates
        old.drain.now new.drain.now f stop };

    ghost lender = { λ v. v.drain.ghost_name ∷ D.lender v.drain.now };

    #[tactic(auto, unfolding(crate::specs::Showing::frame_text))]
    fn visit(&mut self, alloc: Global, frame: &Frame<'_>) -> Result<(), Stop> {
        self.lines.write_payload(alloc, frame, self.drain)
    }
}

/// Writes the text of a whole file, and returns the digest of its bytes.
fn write_text<F: Feed, D: Drain>(
    passes: Passes,
    feed: &mut F,
    drain: &mut D,
    dates: bool,
) -> Result<[u8; 32], Stop>
    ensures { ShowsAgain (fed F.Feed feed.old feed.new) (drained D.Drain drain.old drain.new)
        passes.check dates result }
{
    let text = Vec::new(passes.alloc);
    let mut lines = LineWriter { text, dates };
    let mut showing = Showing {
        lines: &mut lines,
        drain,
    };
    Ok(pass_over(passes, feed, &mut showing)?.digest)
}

/// Writes a line for each field of the header and for each entity, and returns the numbers of entities. With `dates` times
/// are written as dates.
///
/// Both feeds have to supply the same bytes. The first is judged as a whole before anything is written: `Refused` names its
/// first fault, of any phase. The second is written from. `Changed(2)` says that it had a fault or another digest, so that
/// its bytes aren't those of the first; what was written then is unspecified. Holds one frame at a time, with the places of
/// its texts, and one line.
pub fn show<F: Feed, G: Feed, D: Drain>(
    alloc: Global,
    first: &mut F,
    second: &mut G,
    drain: &mut D,
    dates: bool,
) -> Result<Counts, Stop>
    // The first feed's file has no fault, and the counts are those of its entities.
    ensures counted { IfOk result (CountsFile (judged_file (F.remaining first.old))) }
    // The drain took exactly the text of the second feed's file, which has no fault: if the feeds supply the same, that of the first.
    ensures shown { OnOk result (Took D.Drain drain.old drain.new
        (Shown dates (judged_file (G.remaining second.old)))) }
    // The bytes of both feeds have one SHA-256 digest: no files that differ, unless two different lists share a digest.
    ensures digests { OnOk result (SameDigest (F.remaining first.old) (G.remaining second.old)) }
    // `Refused` names the first fault of the first feed's file, and the drain took nothing. `Read` and `Write` come only if a count of
    // failures rose: of a feed, of the drain. `Changed(2)`: the second feed's bytes aren't the first's. No other number comes.
    ensures stops { IfErr result (StopsPasses judged_file (fed F.Feed first.old first.new)
        (fed G.Feed second.old second.new ∷ []) (drained D.Drain drain.old drain.new)) }
    // Whatever stopped it, if both feeds supply one file, a prefix of its text went out, and nothing if it has a fault.
    ensures beginning { OnErr result (F.remaining first.old ≡ G.remaining second.old
        → ShowsFront dates (judged_file (F.remaining first.old))
        (D.taken drain.old) (D.taken drain.new)) }
{
    let passes = Passes {
        alloc,
        check: PassCheck::Sha256,
    };
    Ok(show_with_receipt(passes, first, second, drain, dates)?.counts)
}

/// Like [`show`], and returns the digest of what was read, whether the devices report their bytes or not. A
/// [`pbf_pass::HashedDrain`] has the digest of the text: see [`crate::laws::hashed_drain_took`].
pub fn show_with_receipt<F: Feed, G: Feed, D: Drain>(
    passes: Passes,
    first: &mut F,
    second: &mut G,
    drain: &mut D,
    dates: bool,
) -> Result<InputReceipt, Halt>
    // Each feed gave a file, of the digest `input` by the check, to its end. The first has no fault, and the counts are those of
    // its entities. The drain took exactly the text of the second, which has no fault.
    ensures receipt { IfOk result (λ receipt. GaveFile F.Feed first.old first.new
        (mark_by passes.check receipt.input)
        (λ b. CountsFile (judged_file (Some b)) receipt.counts
        × GaveFile G.Feed second.old second.new (mark_by passes.check receipt.input)
        (λ c. Took D.Drain drain.old drain.new (Shown dates (judged_file (Some c)))))) }
    // However it ends: `refused` says what is refused, of the bytes that were read, and that the drain took nothing then; `stops` why it
    // stops; `changed` of what bytes it says `Changed`; and `feeds` and `out` that it keeps its devices.
    ensures ends { EndsPasses judged_file (fed F.Feed first.old first.new)
        (fed G.Feed second.old second.new ∷ [])
        (drained D.Drain drain.old drain.new) passes.check result }
    // Whatever stopped it, if both feeds supply one file, a prefix of its text went out, and nothing if it has a fault.
    ensures beginning { OnErr result (F.remaining first.old ≡ G.remaining second.old
        → ShowsFront dates (judged_file (F.remaining first.old))
        (D.taken drain.old) (D.taken drain.new)) }
{
    let judged = judge(passes, first, &mut Nothing)?;
    let input = judged.digest;
    let last = LaterPass {
        number: 2,
        digest: input,
        passes,
    };
    match write_text(passes, second, drain, dates) {
        Ok(digest) => {
            last.compare(digest)?;
            Ok(InputReceipt {
                counts: judged.pass.counts,
                input,
                spared: false,
            })
        }
        Err(stop) => Err(Halt::from(last.changed(stop))),
    }
}
