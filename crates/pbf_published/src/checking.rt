//! `check` of a published file.

ghost use Rattle.std.specs.Prelude.{Some, ◌∷◌, [], IfOk, IfErr};
ghost use Rattle.pbf_pass.specs.Judged.{judged_file};
ghost use Rattle.pbf_pass.specs.Pass.{CountsFile};
ghost use Rattle.pbf_pass.specs.Stops.{Caused, ReadFailed, FaultOf};
ghost use Rattle.pbf_pass.specs.Hashing.{mark_by, raw_check};
ghost use Rattle.pbf_published.specs.Published.{GavePublished, PassChanged, raw_of};

use crate::input::{
    PublishedHalt, PublishedInput, close, first_digest, lacks_memory, open, packed_digest,
    published_outcome,
};
use pbf_frame::Feed;
use pbf_pass::Passes;
use std::alloc::Global;

/// Judges the raw file that a published one means, counts its entities, and returns the digests of both files.
///
/// A refusal has the place of the fault in the published file. Reads once, and holds one packed frame and two raw ones.
pub fn check_with_receipt<F: Feed>(
    passes: Passes,
    feed: &mut F,
) -> Result<PublishedInput, PublishedHalt>
    // The feed gave packed bytes of the digest `input`, which mean a raw file, of the SHA-256 digest `raw` if that is the check. That file
    // has no fault, and the counts are those of its entities.
    ensures receipt { IfOk result (λ receipt. GavePublished F.Feed feed.old feed.new
        (mark_by passes.check receipt.input)
        (mark_by (raw_check passes.check) receipt.raw)
        (λ file. CountsFile (judged_file (Some file)) receipt.counts)) }
    // Each stop has its cause. What is refused is the raw file that the feed's bytes mean, by its first fault. `Read` comes only if the
    // feed's count of failures rose; `Write` never comes. `Changed(1)` comes only if the feed doesn't report its bytes.
    ensures stops { IfErr result (λ h. Caused (FaultOf (judged_file (raw_of (F.remaining feed.old))))
        (ReadFailed F.Feed feed.old feed.new) ⊥
        (PassChanged (F.remaining feed.old ∷ [])) h.stop) }
{
    let alloc = passes.alloc;
    let mut input = open(alloc, &mut *feed, passes.check)?;
    let outcome = pbf_pass::check_with_receipt(passes.of_raw(), &mut input);
    let outcome = published_outcome(outcome, &input, lacks_memory(&input));
    let digest = packed_digest(&mut input);
    let _feed = close(input);
    let receipt = outcome?;
    Ok(PublishedInput {
        counts: receipt.counts,
        input: first_digest(digest)?,
        raw: receipt.input,
    })
}
