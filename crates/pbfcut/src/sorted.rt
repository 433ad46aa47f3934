//! The extracts with one pass fewer, for files whose ways come after their nodes.

ghost use Rattle.std.specs.Prelude.{◌≡◌, ◌⊎◌, ℕ, List, [], ◌∷◌, IfErr, OnOk};
ghost use Rattle.osm_ways.specs.Selection.{all_parents, complete_ways};
ghost use Rattle.pbfcut.specs.Calls.{AllSupply, drained, fed, StopsPasses};
ghost use Rattle.pbfcut.specs.Theorem.{Extracted, Promised, Canonical};
ghost use Rattle.pbfcut.specs.Converting.{CanBeWritten};
ghost use Rattle.pbf_pass.specs.HeaderLimit.{judged_writable};
ghost use Rattle.pbfcut.specs.Extracting.{extract_bytes};
ghost use Rattle.pbfcut.specs.Repeat.{SameDigest};
ghost use Rattle.pbfcut.specs.Receipts.{Extracts};

use crate::extracting::{cut, cut_parents};
use osm_area::Area;
use osm_ways::{FirstPhase, SortedPhase};
use pbf_block::Counts;
use pbf_frame::{Drain, Feed, Stop};
use pbf_pass::{Halt, InputReceipt, PassCheck, Passes};
use std::alloc::Global;
use std::hash::BuildHasher;

/// Like [`extract`](crate::extract), in two passes if no node of the file comes after a way: then the first gives the ways too, and
/// nothing is read of the second feed. For any other file there are three passes, as there.
///
/// Everything that is said there holds. Space: also the refs and the ids of the ways, which are gathered during the first pass.
pub fn extract_sorted<A: Area + Copy, F: Feed, G: Feed, H: Feed, D: Drain, S: BuildHasher + Drop>(
    alloc: Global,
    first: &mut F,
    second: &mut G,
    third: &mut H,
    area: A,
    drain: &mut D,
    hasher: S,
) -> Result<Counts, Stop>
    // The first feed's file has no fault, and its header can be written, whatever the other feeds supply.
    ensures judged { OnOk result (CanBeWritten (judged_writable (F.remaining first.old))) }
    // If all feeds supply these bytes, the drain took bytes that decode to exactly the complete-ways extract of what they decode
    // to, in input order, or they are refused for their first fault, with nothing written.
    ensures promise { (b : List ℕ)
        → AllSupply b (F.remaining first.old ∷ G.remaining second.old ∷ H.remaining third.old ∷ [])
        → Promised D.Drain drain.old drain.new b
        (Extracted complete_ways (A.area area) b) result }
    // If all feeds supply these bytes: whatever stopped it, what the drain took is a prefix of their extract in canonical form, and nothing
    // if they have a fault; on success it is all of the extract, and an extract of it is the same bytes.
    ensures canonical { (b : List ℕ)
        → AllSupply b (F.remaining first.old ∷ G.remaining second.old ∷ H.remaining third.old ∷ [])
        → Canonical D.Drain drain.old drain.new
        (extract_bytes complete_ways (A.area area)) b result }
    // The bytes of all feeds that were read have one SHA-256 digest: no files that differ, unless two different lists share a digest.
    ensures digests { OnOk result ((SameDigest (F.remaining first.old) (G.remaining second.old)
        ⊎ (second.new ≡ second.old))
        × SameDigest (F.remaining first.old) (H.remaining third.old)) }
    // `Refused` names the first fault of the first feed's file, or that its header can't be written, and the drain took nothing. `Read`
    // and `Write` come only if a count of failures rose: of a feed, of the drain. `Changed(2)`: the second feed's bytes aren't the
    // first's, and the drain took nothing. `Changed(3)`: the third's aren't. No other number comes.
    ensures stops { IfErr result (StopsPasses judged_writable (fed F.Feed first.old first.new)
        (fed G.Feed second.old second.new ∷ fed H.Feed third.old third.new ∷ [])
        (drained D.Drain drain.old drain.new)) }
{
    let passes = Passes {
        alloc,
        check: PassCheck::Sha256,
    };
    let receipt = extract_sorted_with_receipt(passes, first, second, third, area, drain, hasher)?;
    Ok(receipt.counts)
}

/// Like [`extract_sorted`], and returns the digest of what was read, as [`extract_with_receipt`](crate::extract_with_receipt) does.
pub fn extract_sorted_with_receipt<
    A: Area + Copy,
    F: Feed,
    G: Feed,
    H: Feed,
    D: Drain,
    S: BuildHasher + Drop,
>(
    passes: Passes,
    first: &mut F,
    second: &mut G,
    third: &mut H,
    area: A,
    drain: &mut D,
    hasher: S,
) -> Result<InputReceipt, Halt>
    // Each feed gave a file, of the digest `input` by the check, to its end, unless the second was spared. If they are the same, the
    // drain took exactly its complete-ways extract. However it ends: what is refused, why it stops, what went out by then, and
    // that the devices are kept.
    ensures { Extracts complete_ways (A.area area) (fed F.Feed first.old first.new)
        (fed G.Feed second.old second.new ∷ []) (fed H.Feed third.old third.new ∷ [])
        (drained D.Drain drain.old drain.new) passes.check result }
{
    cut::<A, FirstPhase, F, G, H, D, S>(passes, first, second, third, area, drain, hasher)
}

/// Like [`extract_parents_with_receipt`](crate::extract_parents_with_receipt), in two passes if no node of the file comes after a way, and
/// neither after a relation: then the first gives ways and relations too, and nothing is read of the second feed and the third. For any
/// other file there are four passes, as there.
pub fn extract_parents_sorted_with_receipt<
    A: Area + Copy,
    F: Feed,
    G: Feed,
    H: Feed,
    I: Feed,
    D: Drain,
    S: BuildHasher + Drop,
>(
    passes: Passes,
    first: &mut F,
    second: &mut G,
    third: &mut H,
    fourth: &mut I,
    area: A,
    drain: &mut D,
    hasher: S,
) -> Result<InputReceipt, Halt>
    // Each feed gave a file, of the digest `input` by the check, to its end, unless the second and the third were spared. If they are the same, the
    // drain took exactly its complete-ways extract with all parents. However it ends: what is refused, why it stops, what went out by then, and
    // that the devices are kept.
    ensures { Extracts all_parents (A.area area) (fed F.Feed first.old first.new)
        (fed G.Feed second.old second.new ∷ fed H.Feed third.old third.new ∷ [])
        (fed I.Feed fourth.old fourth.new ∷ [])
        (drained D.Drain drain.old drain.new) passes.check result }
{
    cut_parents::<A, SortedPhase, F, G, H, I, D, S>(
        passes, first, second, third, fourth, area, drain, hasher,
    )
}
