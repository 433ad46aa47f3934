//! The pass that writes. It comes after the one that judged the file, and judges no payload: that its bytes are those of the first
//! pass is seen by their digest, at the end.

ghost use Rattle.std.specs.Prelude.{◌∷◌, ◌≡◌};
ghost use Rattle.pbf_header.specs.Header.{header_of};
ghost use Rattle.pbf_pass.specs.HeaderLimit.{HasShortTexts};
ghost use Rattle.pbf_pass.specs.Payload.{primitive_block, lent_by};
ghost use Rattle.pbfcut.specs.Calls.{fed, drained};
ghost use Rattle.pbfcut.specs.Pick.{picks_of, IsFreshPacker, IsReadyToPack};
ghost use Rattle.pbfcut.specs.Write.{PacksUnjudged, PacksNext, FailsAtNext, WritesUnjudged, WritesAgain};

use crate::pick::EntityPacker;
use crate::picker::Picker;
use crate::repeat::LaterPass;
use osm_pack::Packer;
use osm_ways::Chosen;
use pbf_block::{Counts, Kinds, UnjudgedBlock};
use pbf_frame::{Drain, Feed, Frame, FrameKind, Stop};
use pbf_header::Header;
use pbf_pass::{InputReceipt, Visit, pass_over};
use std::alloc::Global;
use std::hash::BuildHasher;

/// Packs what is picked of a PrimitiveBlock, which isn't judged.
fn pack_block<D: Drain, S: BuildHasher>(
    frame: &Frame<'_>,
    entities: &mut EntityPacker<'_>,
    packer: &mut Packer<D, S>,
) -> Result<(), Stop>
    requires { IsReadyToPack packer.old }
    ensures { PacksUnjudged D.Drain (primitive_block frame.now.payload_at frame.now.payload.now)
        entities.old entities.new packer.old packer.new result }
{
    let Some(block) = UnjudgedBlock::open(entities.alloc, frame.payload, frame.payload_at)? else {
        return Err(Stop::Changed(entities.number));
    };
    entities.pack_runs(block.runs_among(Kinds::all()), packer)?;
    Ok(())
}

/// Packs what is picked of the payload of a frame, which isn't judged.
pub(crate) fn pack_payload<D: Drain, S: BuildHasher>(
    frame: &Frame<'_>,
    entities: &mut EntityPacker<'_>,
    packer: &mut Packer<D, S>,
) -> Result<(), Stop>
    requires { IsReadyToPack packer.old }
    ensures { PacksUnjudged D.Drain (lent_by frame.now)
        entities.old entities.new packer.old packer.new result }
{
    match frame.kind {
        FrameKind::Data => pack_block(frame, entities, packer),
        FrameKind::Header | FrameKind::Other => Ok(()),
    }
}

/// Packs what is picked of frames that were judged in a pass before, and counts it.
///
/// The reader judges frames, but nothing judges their payloads: of a frame that has a fault anything that can be written may go out, or
/// `Changed` with the number is returned. On another stop, of a frame without a fault, a prefix of its entities may have gone out.
#[derive(Drop)]
struct Writer<'a, D: Drain, S: BuildHasher> {
    packer: &'a mut Packer<D, S>,
    /// Lasts from frame to frame, so that its look-ups keep what they learnt.
    entities: EntityPacker<'a>,
}

impl<D: Drain, S: BuildHasher> Visit for Writer<'_, D, S> {
    ghost took = { λ old f new. PacksNext D.Drain (picks_of old.entities.picker)
        old.packer.now new.packer.now old.entities.counts new.entities.counts f
        × (new.entities.picker ≡ old.entities.picker)
        × (new.entities.number ≡ old.entities.number) };

    ghost failed = { λ old f new stop. FailsAtNext D.Drain old.entities.number
        (picks_of old.entities.picker) old.packer.now new.packer.now f stop };

    ghost ready = { λ v. IsReadyToPack v.packer.now };

    ghost lender = { λ v. v.packer.ghost_name ∷ D.lender v.packer.now.drain };

    fn visit(&mut self, _alloc: Global, frame: &Frame<'_>) -> Result<(), Stop> {
        pack_payload(frame, &mut self.entities, self.packer)
    }
}

/// What is written of a file, and in which pass.
#[derive(Clone, Copy)]
pub(crate) struct OutputPlan<'a> {
    /// The pass.
    pub(crate) pass: LaterPass,
    /// The header.
    pub(crate) header: &'a Header,
    /// Which of the entities; all of them if nothing was chosen.
    pub(crate) chosen: Option<&'a Chosen>,
}

impl<'a> OutputPlan<'a> {
    /// Puts a header, what is picked of a whole file, and the last block through a packer.
    fn pack_file<F: Feed, D: Drain, S: BuildHasher>(
        self,
        feed: &mut F,
        packer: &'a mut Packer<D, S>,
    ) -> Result<InputReceipt, Stop>
        requires fresh { IsFreshPacker packer.old }
        requires short { HasShortTexts (header_of self.header.now) }
        ensures { WritesUnjudged (fed F.Feed feed.old feed.new)
            (drained D.Drain packer.old.drain packer.new.drain) self.entry result }
    {
        packer.put_header(self.header)?;
        let passes = self.pass.passes;
        let picker = Picker::of_taken(self.chosen);
        let entities = EntityPacker::new(passes.alloc, picker, Counts::none(), self.pass.number);
        let mut writer = Writer { packer, entities };
        let outcome = pass_over(passes, feed, &mut writer);
        // What is known of the packer comes back with the reference itself.
        let Writer { packer, entities } = writer;
        let counts = entities.counts;
        let input = outcome?.digest;
        packer.finish()?;
        Ok(InputReceipt {
            counts,
            input,
            spared: false,
        })
    }

    /// Writes a header and what is picked of a whole file. What was written is specified if the digest is that of the bytes which were
    /// judged.
    fn write_unjudged<F: Feed, D: Drain, S: BuildHasher + Drop>(
        self,
        feed: &mut F,
        drain: &mut D,
        hasher: S,
    ) -> Result<InputReceipt, Stop>
        requires { HasShortTexts (header_of self.header.now) }
        ensures { WritesUnjudged (fed F.Feed feed.old feed.new)
            (drained D.Drain drain.old drain.new) self.entry result }
    {
        let mut packer = Packer::new(self.pass.passes.alloc, &mut *drain, hasher);
        let outcome = self.pack_file(feed, &mut packer);
        // What is known of the drain comes back with the reference itself.
        let _drain = packer.into_drain();
        outcome
    }

    /// Writes a header and what is picked of a whole file, which has to be the one that was judged.
    pub(crate) fn write<F: Feed, D: Drain, S: BuildHasher + Drop>(
        self,
        feed: &mut F,
        drain: &mut D,
        hasher: S,
    ) -> Result<Counts, Stop>
        requires { HasShortTexts (header_of self.header.now) }
        ensures { WritesAgain (fed F.Feed feed.old feed.new)
            (drained D.Drain drain.old drain.new) self.entry result }
    {
        match self.write_unjudged(feed, drain, hasher) {
            Ok(wrote) => {
                self.pass.compare(wrote.input)?;
                Ok(wrote.counts)
            }
            Err(stop) => Err(self.pass.changed(stop)),
        }
    }
}
