//! `convert`: all entities, in canonical form.

ghost use Rattle.std.specs.Prelude.{ℕ, List, [], ◌∷◌, false, IfOk, IfErr, OnOk};
ghost use Rattle.pbfcut.specs.Calls.{AllSupply, drained, fed, StopsPasses};
ghost use Rattle.pbfcut.specs.Theorem.{Converted, IsConverted, Promised, Canonical};
ghost use Rattle.pbfcut.specs.Converting.{answer_bytes, CanBeWritten};
ghost use Rattle.pbf_pass.specs.HeaderLimit.{judged_writable};
ghost use Rattle.pbf_pass.specs.Hashing.{mark_by};
ghost use Rattle.pbfcut.specs.Kept.{conversion_of};
ghost use Rattle.pbfcut.specs.Receipts.{Wrote};
ghost use Rattle.pbfcut.specs.Repeat.{SameDigest};
ghost use Rattle.pbfcut.specs.Ends.{EndsInFront, EndsPasses};

use crate::repeat::LaterPass;
use crate::write::OutputPlan;
use pbf_block::Counts;
use pbf_frame::{Drain, Feed, Stop};
use pbf_pass::{Halt, InputReceipt, Nothing, PassCheck, Passes, judge, writable_header};
use std::alloc::Global;
use std::hash::BuildHasher;

/// Writes all entities in canonical form, after the header in written form, and returns their numbers.
///
/// Both feeds have to supply the same bytes. The first is judged as a whole before anything is written: `Refused` names its
/// first fault, of any phase, or `EntityLarge` at its HeaderBlock if the header's source and base URL have more than
/// 12,000,000 bytes together. The second is written from. `Changed(2)` says that it had a fault or another digest, so that its
/// bytes aren't those of the first; what was written then is unspecified. The input is untrusted, so the hasher
/// should be seeded.
///
/// A conversion of what was written is the same bytes: see [`crate::laws`].
pub fn convert<F: Feed, G: Feed, D: Drain, S: BuildHasher + Drop>(
    alloc: Global,
    first: &mut F,
    second: &mut G,
    drain: &mut D,
    hasher: S,
) -> Result<Counts, Stop>
    // The first feed's file has no fault, and its header can be written, whatever the other feeds supply.
    ensures judged { OnOk result (CanBeWritten (judged_writable (F.remaining first.old))) }
    // If both feeds supply these bytes, the drain took bytes that decode to exactly what they do: the header in written form, with its
    // own box, and the entities, in order, with all fields; the counts are those of the entities. Or they are refused for their first
    // fault, with nothing written.
    ensures promise { (b : List ℕ)
        → AllSupply b (F.remaining first.old ∷ G.remaining second.old ∷ [])
        → Promised D.Drain drain.old drain.new b (Converted b) result }
    // If both feeds supply these bytes: whatever stopped it, what the drain took is a prefix of their conversion in canonical form, and
    // nothing if they have a fault; on success it is all of it, and a conversion of it is the same bytes.
    ensures canonical { (b : List ℕ)
        → AllSupply b (F.remaining first.old ∷ G.remaining second.old ∷ [])
        → Canonical D.Drain drain.old drain.new answer_bytes b result }
    // The bytes of both feeds have one SHA-256 digest: no files that differ, unless two different lists share a digest.
    ensures digests { OnOk result (SameDigest (F.remaining first.old) (G.remaining second.old)) }
    // `Refused` names the first fault of the first feed's file, or that its header can't be written, and the drain took nothing. `Read`
    // and `Write` come only if a count of failures rose: of a feed, of the drain. `Changed(2)`: the second feed's bytes aren't the
    // first's. No other number comes.
    ensures stops { IfErr result (StopsPasses judged_writable (fed F.Feed first.old first.new)
        (fed G.Feed second.old second.new ∷ []) (drained D.Drain drain.old drain.new)) }
{
    let passes = Passes {
        alloc,
        check: PassCheck::Sha256,
    };
    Ok(convert_with_receipt(passes, first, second, drain, hasher)?.counts)
}

/// Like [`convert`], and returns the digest of what was read, whether the devices report their bytes or not. A
/// [`pbf_pass::HashedDrain`] has the digest of what was written: see [`crate::laws::hashed_drain_took`].
pub fn convert_with_receipt<F: Feed, G: Feed, D: Drain, S: BuildHasher + Drop>(
    passes: Passes,
    first: &mut F,
    second: &mut G,
    drain: &mut D,
    hasher: S,
) -> Result<InputReceipt, Halt>
    // Each feed gave a file, of the digest `input` by the check, to its end; the first has no fault, and its header can be written.
    // The drain took bytes. If both files are the same, these bytes are exactly its conversion, and the counts are those of its entities.
    ensures receipt { IfOk result (λ receipt. Wrote (fed F.Feed first.old first.new)
        [] (fed G.Feed second.old second.new ∷ []) (drained D.Drain drain.old drain.new)
        (mark_by passes.check receipt.input) false
        (λ b written. IsConverted b receipt.counts written)) }
    // However it ends: `refused` says what is refused, of the bytes that were read, and that the drain took nothing then; `stops` why it
    // stops; `changed` of what bytes it says `Changed`; and `feeds` and `out` that it keeps its devices.
    ensures ends { EndsPasses judged_writable (fed F.Feed first.old first.new)
        (fed G.Feed second.old second.new ∷ [])
        (drained D.Drain drain.old drain.new) passes.check result }
    // Whatever stopped it, if both feeds supply these bytes, a prefix of their conversion went out, and nothing if they have a fault.
    ensures beginning { EndsInFront conversion_of (fed F.Feed first.old first.new
        ∷ fed G.Feed second.old second.new ∷ []) (drained D.Drain drain.old drain.new) result }
{
    let judged = judge(passes, first, &mut Nothing)?;
    let digest = judged.digest;
    let plan = OutputPlan {
        pass: LaterPass {
            number: 2,
            digest,
            passes,
        },
        header: writable_header(&judged)?,
        chosen: None,
    };
    let counts = plan.write(second, drain, hasher)?;
    Ok(InputReceipt {
        counts,
        input: digest,
        spared: false,
    })
}
