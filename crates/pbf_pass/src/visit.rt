//! A pass over frames, each of which goes to a visitor.

ghost use Rattle.std.specs.Prelude.{◌≡◌, List, [], false, Some, IfOk, IfErr, OnOk};
ghost use Rattle.std.specs.Borrow.{GName};
ghost use Rattle.pbf_frame.specs.declared.stop.Stop.{Stop};
ghost use Rattle.pbf_frame.specs.declared.stop.Stop.TheVariants as stop;
ghost use Rattle.pbf_frame.specs.Frames.{FrameSpec};
ghost use Rattle.pbf_frame.specs.Next.{IsReading, Shows, verdict};
ghost use Rattle.pbf_frame.specs.Verdict.{judged_known};
ghost use Rattle.pbf_pass.specs.Given.{GaveRest, GaveFile, judged_from};
ghost use Rattle.pbf_pass.specs.Hashing.{IsLength, mark_by};
ghost use Rattle.pbf_pass.specs.Refused.{RefusesRest, RefusesBytes, Halts, stop_of};
ghost use Rattle.pbf_pass.specs.Stops.{ReadFailed};
ghost use Rattle.pbf_frame.specs.Keeps.{KeepsFeed};
ghost use Rattle.pbf_pass.specs.Visit.{VisitsAll, StopsVisit, RefusesVisit, KeepsVisitor};
ghost use Rattle.pbf_pass.specs.Pass.{Steps};

use crate::hashed::PassFeed;
use crate::receipt::{Halt, Passes};
use pbf_frame::{Feed, Frame, FrameReader, Stop};
use std::alloc::Global;

/// What a pass does with each frame of a file.
pub trait Visit {
    /// What it does with a frame: what it was before, and what it is then.
    ghost took: { Self → FrameSpec → Self → Type 0 };

    /// Why it stops at a frame: what it was before, and what it is then.
    ghost failed: { Self → FrameSpec → Self → Stop → Type 0 };

    /// Whether it can take a frame. It stays so until it stops.
    ghost ready: { Self → Type 0 } = { λ _. Unit {0} };

    /// The references that it goes through.
    ghost lender: { Self → List GName } = { λ _. [] };

    /// Does with a frame what `took` says, or stops as `failed` says; each visitor states these, and when it is `ready`. After a stop it
    /// may only be dropped or taken apart.
    fn visit(&mut self, alloc: Global, frame: &Frame<'_>) -> Result<(), Stop>
        requires { ready self.old }
        ensures took { OnOk result ((f : FrameSpec) → Shows frame.now f
            → took self.old f self.new) }
        ensures failed { IfErr result (λ stop. (f : FrameSpec) → Shows frame.now f
            → failed self.old f self.new stop) }
        ensures ready { OnOk result (ready self.new) }
        ensures lender { lender self.new ≡ lender self.old };
}

/// Visits the next frame; false at the end of an input that had its header. After a stop the reader and the visitor may only be
/// dropped or taken apart.
pub fn step<F: Feed, V: Visit>(
    alloc: Global,
    reader: &mut FrameReader<F>,
    visitor: &mut V,
) -> Result<bool, Stop>
    requires { V.ready visitor.old }
    // On `true` exactly the next frame's bytes are gone, the frame has no fault, and it was visited. A reader at its end returns `false`, a
    // spent one its stop, and the visitor is as it was. Whatever is returned, the place is at most 2^62, and the reader holds at most
    // 33,620,990 bytes.
    ensures steps { Steps F.Feed reader.old reader.new (λ f. V.took visitor.old f visitor.new)
        (λ f stop. V.failed visitor.old f visitor.new stop) (visitor.new ≡ visitor.old) result }
    // The visitor can take a frame until it stops, and goes through the same references.
    ensures visitor { KeepsVisitor V.ready V.lender visitor.old visitor.new result }
{
    let Some(frame) = reader.next()? else {
        return Ok(false);
    };
    visitor.visit(alloc, &frame)?;
    Ok(true)
}

/// Visits the frames that are left, by steps, and returns how many there are: after each step `space` bounds what the reader holds.
pub fn visit_rest<F: Feed, V: Visit>(
    alloc: Global,
    reader: &mut FrameReader<F>,
    visitor: &mut V,
) -> Result<u64, Stop>
    requires reading { IsReading reader.old }
    requires ready { V.ready visitor.old }
    // The feed gave all that it had left, and its frames were visited.
    ensures visited { IfOk result (λ count. GaveRest F.Feed reader.old reader.new
        (λ known. VisitsAll V.took known count visitor.old visitor.new)) }
    // The reader stopped after frames that were visited, or the visitor at the frame after them.
    ensures stops { IfErr result (StopsVisit V.took V.failed (verdict F.remaining reader.old)
        (ReadFailed F.Feed reader.old.feed reader.new.feed) visitor.old visitor.new) }
    // A refusal, and a visitor's `Changed`, holds of whatever begins with the bytes that the feed gave (or of them, if it was at its end).
    ensures refused { IfErr result (RefusesRest F.Feed reader.old.feed reader.new.feed
        (RefusesVisit V.took V.failed (judged_from reader.old) visitor.old visitor.new)) }
    // The feed keeps its references, and its count of failures doesn't fall.
    ensures keeps { KeepsFeed F.Feed reader.old.feed reader.new.feed }
    // The visitor can take a frame until it stops, and goes through the same references.
    ensures visitor { KeepsVisitor V.ready V.lender visitor.old visitor.new result }
{
    let mut count = 0;
    'frames: while step(alloc, reader, visitor)? {
        count += 1;
    }
    Ok(count)
}

/// What was read of a file.
#[derive(Clone, Copy, Debug)]
pub struct FileRead {
    /// How many frames it has.
    pub frames: u64,
    /// How many bytes it has, up to the greatest number.
    pub count: u64,
    /// Their digest by the check of the passes.
    pub digest: [u8; 32],
}

/// Visits the frames of a whole file, counts its bytes, and hashes them by the check of `passes`. Reads each byte once, to the file's end
/// if it returns `Ok`, and holds one frame at a time.
pub fn pass_over<F: Feed, V: Visit>(
    passes: Passes,
    feed: &mut F,
    visitor: &mut V,
) -> Result<FileRead, Halt>
    requires { V.ready visitor.old }
    // The feed gave a file, of this digest by the check, to its end, and its frames were visited.
    ensures visited { IfOk result (λ read. GaveFile F.Feed feed.old feed.new
        (mark_by passes.check read.digest) (λ file. IsLength read.count file
        × VisitsAll V.took (judged_known false 0 (Some file)) read.frames
        visitor.old visitor.new)) }
    // The reader stopped after frames that were visited, or the visitor at the frame after them.
    ensures stops { IfErr result (λ h. StopsVisit V.took V.failed
        (judged_known false 0 (F.remaining feed.old)) (ReadFailed F.Feed feed.old feed.new)
        visitor.old visitor.new (stop_of h)) }
    // A refusal has the number and the digest of what the feed gave: whatever begins so is refused so.
    ensures refused { IfErr result (Halts (RefusesBytes F.Feed feed.old feed.new passes.check
        (λ e. RefusesVisit V.took V.failed (λ b. judged_known false 0 (Some b))
        visitor.old visitor.new (stop.Refused e)))) }
    // So is a visitor's `Changed` returned for whatever begins with what the feed gave.
    ensures given { IfErr result (λ h. RefusesRest F.Feed feed.old feed.new
        (RefusesVisit V.took V.failed (λ b. judged_known false 0 (Some b))
        visitor.old visitor.new) (stop_of h)) }
    // The feed keeps its references, and its count of failures doesn't fall.
    ensures keeps { KeepsFeed F.Feed feed.old feed.new }
    // The visitor can take a frame until it stops, and goes through the same references.
    ensures visitor { KeepsVisitor V.ready V.lender visitor.old visitor.new result }
{
    let mut reader = FrameReader::new(passes.alloc, PassFeed::new(&mut *feed, passes.check));
    let outcome = visit_rest(passes.alloc, &mut reader, visitor);
    let count = reader.feed.count();
    let digest = reader.feed.digest();
    // What is known of the feed comes back with the reference itself.
    let _feed = reader.into_feed().into_inner();
    match outcome {
        Ok(frames) => Ok(FileRead {
            frames,
            count,
            digest,
        }),
        Err(stop) => Err(Halt::new(stop, count, digest)),
    }
}
