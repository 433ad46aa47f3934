//! `extract` and `extract_parents`: what a box cuts out of a file, in canonical form.

ghost use Rattle.std.specs.Prelude.{◌≡◌, ℕ, List, [], ◌∷◌, false, Some, IfOk, IfErr, OnOk};
ghost use Rattle.osm_area.specs.Area.{box_area};
ghost use Rattle.osm_ways.specs.Selection.{all_parents, complete_ways};
ghost use Rattle.osm_ways.specs.Whole.{is_wanted};
ghost use Rattle.pbf_header.specs.Header.{header_of};
ghost use Rattle.pbfcut.specs.Calls.{AllSupply, drained, fed, GaveBy, GaveOrNot, StopsPasses};
ghost use Rattle.pbfcut.specs.Choosing.{EndsChoosing, IsNever, RefusesOrder, StopsChoosing};
ghost use Rattle.pbfcut.specs.Theorem.{Extracted, Promised, Canonical};
ghost use Rattle.pbfcut.specs.Converting.{CanBeWritten};
ghost use Rattle.pbf_pass.specs.HeaderLimit.{HasShortTexts, judged_writable};
ghost use Rattle.pbfcut.specs.Extracting.{extract_bytes, Begins, IsChoice, IsChoiceWithParents};
ghost use Rattle.pbf_pass.specs.Given.{GaveFile};
ghost use Rattle.pbf_pass.specs.declared.hashing.PassCheck.TheVariants as check;
ghost use Rattle.pbf_pass.specs.Hashing.{mark_by};
ghost use Rattle.pbfcut.specs.Repeat.{SameDigest};
ghost use Rattle.pbfcut.specs.Receipts.{Extracts};
ghost use Rattle.pbfcut.specs.Write.{WritesChoice};
ghost use Rattle.pbf_frame.specs.Keeps.{KeepsFeed};

use crate::repeat::LaterPass;
use crate::write::OutputPlan;
use osm_area::Area;
use osm_entity::BoundingBox;
use osm_ways::{Chosen, InArea, NodeIds, NodeTaker, RelationTaker};
use pbf_block::Counts;
use pbf_frame::{Drain, Feed, Stop};
use pbf_header::Header;
use pbf_pass::{Halt, InputReceipt, PassCheck, Passes, judge, writable_header};
use std::alloc::Global;
use std::hash::BuildHasher;

/// What the first pass reports.
#[derive(Drop)]
pub(crate) struct Begun {
    /// The header that is written.
    pub(crate) header: Header,
    /// The digest of the bytes.
    pub(crate) digest: [u8; 32],
    /// What refuses the file if it has to be sorted by type, and isn't.
    pub(crate) unsorted: Halt,
}

/// What the passes before the one that writes report.
#[derive(Drop)]
pub(crate) struct Choice {
    /// What is kept.
    pub(crate) chosen: Chosen,
    /// The header that is written.
    pub(crate) header: Header,
    /// The pass that comes next, with the digest of the first.
    pub(crate) next: LaterPass,
    /// Whether the passes between the first and the one that writes were not made, since the first was enough.
    pub(crate) spared: bool,
}

/// The first pass, which judges the file, takes the nodes that lie in the area, and makes the header of the extract.
pub(crate) fn begin<A: Area, P: NodeTaker, F: Feed>(
    passes: Passes,
    feed: &mut F,
    taking: &mut InArea<A, P>,
) -> Result<Begun, Halt>
    ensures begun { IfOk result (λ begun. GaveFile F.Feed feed.old feed.new
        (mark_by passes.check begun.digest) (λ b. Begins (is_wanted taking.old.types) (A.area taking.old.area) P.step b
        taking.old.phase taking.new.phase (header_of begun.header)
        × RefusesOrder begun.digest begun.unsorted b)) }
    ensures halts { IfErr result (StopsChoosing judged_writable (fed F.Feed feed.old feed.new) [] passes.check) }
    ensures keeps { KeepsFeed F.Feed feed.old feed.new }
{
    let bounds = taking.area.bounds();
    let judged = judge(passes, feed, taking)?;
    let header = writable_header(&judged)?.for_box(passes.alloc, bounds)?;
    Ok(Begun {
        header,
        digest: judged.digest,
        unsorted: judged.unsorted(),
    })
}

impl Choice {
    /// The pass that writes: the header, and what was chosen.
    pub(crate) fn write<F: Feed, D: Drain, S: BuildHasher + Drop>(
        self,
        feed: &mut F,
        drain: &mut D,
        hasher: S,
    ) -> Result<InputReceipt, Halt>
        requires { HasShortTexts (header_of self.header) }
        ensures { WritesChoice (fed F.Feed feed.old feed.new) (drained D.Drain drain.old drain.new)
            self.next self.chosen (header_of self.header) self.spared result }
    {
        let plan = OutputPlan {
            pass: self.next,
            header: &self.header,
            chosen: Some(&self.chosen),
        };
        let counts = plan.write(feed, drain, hasher)?;
        Ok(InputReceipt {
            counts,
            input: self.next.digest,
            spared: self.spared,
        })
    }
}

/// The passes before the one that writes: the first judges the file and takes the nodes of the area, and maybe all ways too. If it has
/// not, the second takes the ways; otherwise it isn't made.
fn choose<A: Area + Copy, P: NodeTaker + Drop, F: Feed, G: Feed>(
    passes: Passes,
    area: A,
    first: &mut F,
    second: &mut G,
) -> Result<Choice, Halt>
    ensures chosen { IfOk result (λ choice. GaveBy (fed F.Feed first.old first.new)
        (mark_by passes.check choice.next.digest)
        (λ b. GaveOrNot (fed G.Feed second.old second.new) choice.spared
        (mark_by passes.check choice.next.digest) b
        (λ c. IsChoice (A.area area) b c choice.chosen (header_of choice.header)))) }
    ensures spared { IfOk result (λ choice. IsNever P.has_ways → choice.spared ≡ false) }
    ensures ends { EndsChoosing judged_writable (fed F.Feed first.old first.new)
        (fed G.Feed second.old second.new ∷ []) passes result }
{
    let mut taking = InArea::<A, P>::new(passes.alloc, area);
    let begun = begin(passes, first, &mut taking)?;
    let digest = begun.digest;
    let again = LaterPass {
        number: 2,
        digest,
        passes,
    };
    let spared = taking.phase.has_all_ways();
    let mut ways = taking.end_nodes()?;
    again.gather_rest(second, &mut ways, spared)?;
    let chosen = ways.end_ways()?;
    Ok(Choice {
        chosen,
        header: begun.header,
        next: LaterPass { number: 3, ..again },
        spared,
    })
}

/// The same with all parents: a third pass takes the relations, unless the first has all ways and all relations too.
fn choose_parents<A: Area + Copy, P: RelationTaker + Drop, F: Feed, G: Feed, H: Feed>(
    passes: Passes,
    area: A,
    first: &mut F,
    second: &mut G,
    third: &mut H,
) -> Result<Choice, Halt>
    ensures chosen { IfOk result (λ choice. GaveBy (fed F.Feed first.old first.new)
        (mark_by passes.check choice.next.digest)
        (λ b. GaveOrNot (fed G.Feed second.old second.new) choice.spared
        (mark_by passes.check choice.next.digest) b
        (λ c. GaveOrNot (fed H.Feed third.old third.new) choice.spared
        (mark_by passes.check choice.next.digest) b
        (λ d. IsChoiceWithParents (A.area area) b c d choice.chosen (header_of choice.header))))) }
    ensures spared { IfOk result (λ choice. IsNever P.has_ways → choice.spared ≡ false) }
    ensures ends { EndsChoosing judged_writable (fed F.Feed first.old first.new)
        (fed G.Feed second.old second.new ∷ fed H.Feed third.old third.new ∷ []) passes result }
{
    let mut taking = InArea::<A, P>::new(passes.alloc, area);
    let begun = begin(passes, first, &mut taking)?;
    let digest = begun.digest;
    let again = LaterPass {
        number: 2,
        digest,
        passes,
    };
    let spared = taking.phase.has_all_ways();
    let (mut ways, found) = taking.end_all()?;
    again.gather_rest(second, &mut ways, spared)?;
    let mut relations = ways.end_with(found)?;
    let more = LaterPass { number: 3, ..again };
    more.gather_rest(third, &mut relations, spared)?;
    let chosen = relations.end_relations()?.into_chosen();
    Ok(Choice {
        chosen,
        header: begun.header,
        next: LaterPass { number: 4, ..again },
        spared,
    })
}

/// The extract of an area, in which `P` is the first phase.
pub(crate) fn cut<
    A: Area + Copy,
    P: NodeTaker + Drop,
    F: Feed,
    G: Feed,
    H: Feed,
    D: Drain,
    S: BuildHasher + Drop,
>(
    passes: Passes,
    first: &mut F,
    second: &mut G,
    third: &mut H,
    area: A,
    drain: &mut D,
    hasher: S,
) -> Result<InputReceipt, Halt>
    ensures extracts { Extracts complete_ways (A.area area) (fed F.Feed first.old first.new)
        (fed G.Feed second.old second.new ∷ []) (fed H.Feed third.old third.new ∷ [])
        (drained D.Drain drain.old drain.new) passes.check result }
    ensures spared { IfOk result (λ receipt. IsNever P.has_ways → receipt.spared ≡ false) }
{
    let choice = choose::<A, P, F, G>(passes, area, first, second)?;
    choice.write(third, drain, hasher)
}

/// The same with all parents.
pub(crate) fn cut_parents<
    A: Area + Copy,
    P: RelationTaker + Drop,
    F: Feed,
    G: Feed,
    H: Feed,
    I: Feed,
    D: Drain,
    S: BuildHasher + Drop,
>(
    passes: Passes,
    first: &mut F,
    second: &mut G,
    third: &mut H,
    fourth: &mut I,
    area: A,
    drain: &mut D,
    hasher: S,
) -> Result<InputReceipt, Halt>
    ensures extracts { Extracts all_parents (A.area area) (fed F.Feed first.old first.new)
        (fed G.Feed second.old second.new ∷ fed H.Feed third.old third.new ∷ [])
        (fed I.Feed fourth.old fourth.new ∷ [])
        (drained D.Drain drain.old drain.new) passes.check result }
    ensures spared { IfOk result (λ receipt. IsNever P.has_ways → receipt.spared ≡ false) }
{
    let choice = choose_parents::<A, P, F, G, H>(passes, area, first, second, third)?;
    choice.write(fourth, drain, hasher)
}

/// Writes the complete-ways extract of the box, in canonical form: the nodes in the box, the ways with at least one of these nodes
/// and all nodes of these ways, and the relations with a kept node or a kept way among their members. Entities keep their order and
/// all their fields; the header keeps what holds of the extract too. Returns the numbers of what was written.
///
/// All three feeds have to supply the same bytes. The first is judged as a whole and gives the nodes of the box, the second gives
/// the ways, and nothing is written before it has ended with the digest of the first; the third is written from. `Refused` names
/// the first fault of the first feed's file, of any phase, or `EntityLarge` at its HeaderBlock if the header's source and base
/// URL have more than 12,000,000 bytes together; nothing is written then. `Changed(2)` or `Changed(3)` says that the second or the
/// third feed's bytes aren't those of the first; after `Changed(2)` nothing is written, and what was written before `Changed(3)`
/// is unspecified. `Read` and `Write` say that a device failed, and `Memory` that memory was refused: what went out is a prefix of
/// what was to be written. The input is untrusted, so the hasher should be seeded.
///
/// Space: one frame, the block that is open, and the sets of ids of the nodes in the box, of the refs and of the ways.
pub fn extract<F: Feed, G: Feed, H: Feed, D: Drain, S: BuildHasher + Drop>(
    alloc: Global,
    first: &mut F,
    second: &mut G,
    third: &mut H,
    area: BoundingBox,
    drain: &mut D,
    hasher: S,
) -> Result<Counts, Stop>
    // The first feed's file has no fault, and its header can be written, whatever the other feeds supply.
    ensures judged { OnOk result (CanBeWritten (judged_writable (F.remaining first.old))) }
    // If all feeds supply these bytes, the drain took bytes that decode to exactly the complete-ways extract of what they decode
    // to, in input order, or they are refused for their first fault, with nothing written.
    ensures promise { (b : List ℕ)
        → AllSupply b (F.remaining first.old ∷ G.remaining second.old ∷ H.remaining third.old ∷ [])
        → Promised D.Drain drain.old drain.new b
        (Extracted complete_ways (box_area area) b) result }
    // If all feeds supply these bytes: whatever stopped it, what the drain took is a prefix of their extract in canonical form, and nothing
    // if they have a fault; on success it is all of the extract, and an extract of it is the same bytes.
    ensures canonical { (b : List ℕ)
        → AllSupply b (F.remaining first.old ∷ G.remaining second.old ∷ H.remaining third.old ∷ [])
        → Canonical D.Drain drain.old drain.new
        (extract_bytes complete_ways (box_area area)) b result }
    // The bytes of all feeds have one SHA-256 digest: no files that differ, unless two different lists share a digest.
    ensures digests { OnOk result (SameDigest (F.remaining first.old) (G.remaining second.old)
        × SameDigest (F.remaining first.old) (H.remaining third.old)) }
    // `Refused` names the first fault of the first feed's file, or that its header can't be written, and the drain took nothing. `Read`
    // and `Write` come only if a count of failures rose: of a feed, of the drain. `Changed(2)`: the second feed's bytes aren't the
    // first's, and the drain took nothing. `Changed(3)`: the third's aren't. No other number comes.
    ensures stops { IfErr result (StopsPasses judged_writable (fed F.Feed first.old first.new)
        (fed G.Feed second.old second.new ∷ fed H.Feed third.old third.new ∷ [])
        (drained D.Drain drain.old drain.new)) }
{
    Ok(extract_with_receipt(alloc, first, second, third, area, drain, hasher)?.counts)
}

/// Like [`extract`], and returns the digest of what was read, whether the devices report their bytes or not. A [`HashedDrain`] has the
/// digest of what was written: see [`crate::laws::hashed_drain_took`].
pub fn extract_with_receipt<F: Feed, G: Feed, H: Feed, D: Drain, S: BuildHasher + Drop>(
    alloc: Global,
    first: &mut F,
    second: &mut G,
    third: &mut H,
    area: BoundingBox,
    drain: &mut D,
    hasher: S,
) -> Result<InputReceipt, Halt>
    // Each feed gave a file, of the digest `input` by the check, to its end. If they are the same, the drain took exactly its complete-ways
    // extract. However it ends: what is refused, why it stops, what went out by then, and that the devices are kept.
    ensures extracts { Extracts complete_ways (box_area area) (fed F.Feed first.old first.new)
        (fed G.Feed second.old second.new ∷ []) (fed H.Feed third.old third.new ∷ [])
        (drained D.Drain drain.old drain.new) check.Sha256 result }
    // Each feed was read.
    ensures spared { IfOk result (λ receipt. receipt.spared ≡ false) }
{
    let passes = Passes {
        alloc,
        check: PassCheck::Sha256,
    };
    cut::<BoundingBox, NodeIds, F, G, H, D, S>(passes, first, second, third, area, drain, hasher)
}

/// Writes the complete-ways extract of the box with all parents: what [`extract`] writes, and all relations that have a kept
/// relation among their members, at any depth.
///
/// There is one more pass, the third, which takes the relations; the fourth feed is written from. Nothing is written before the
/// third pass has ended with the digest of the first, so nothing is written if it ends with `Changed(2)` or `Changed(3)`.
/// Everything else is as there.
///
/// Space: besides that of [`extract`], the ids of the relations, and a link for each member that is a relation.
pub fn extract_parents<F: Feed, G: Feed, H: Feed, I: Feed, D: Drain, S: BuildHasher + Drop>(
    alloc: Global,
    first: &mut F,
    second: &mut G,
    third: &mut H,
    fourth: &mut I,
    area: BoundingBox,
    drain: &mut D,
    hasher: S,
) -> Result<Counts, Stop>
    // The first feed's file has no fault, and its header can be written, whatever the other feeds supply.
    ensures judged { OnOk result (CanBeWritten (judged_writable (F.remaining first.old))) }
    // If all feeds supply these bytes, the drain took bytes that decode to exactly the complete-ways extract with all parents of
    // what they decode to, in input order, or they are refused for their first fault, with nothing written.
    ensures promise { (b : List ℕ)
        → AllSupply b (F.remaining first.old ∷ G.remaining second.old ∷ H.remaining third.old
        ∷ I.remaining fourth.old ∷ [])
        → Promised D.Drain drain.old drain.new b
        (Extracted all_parents (box_area area) b) result }
    // If all feeds supply these bytes: whatever stopped it, what the drain took is a prefix of their extract in canonical form, and nothing
    // if they have a fault; on success it is all of the extract, and an extract of it is the same bytes.
    ensures canonical { (b : List ℕ)
        → AllSupply b (F.remaining first.old ∷ G.remaining second.old ∷ H.remaining third.old
        ∷ I.remaining fourth.old ∷ [])
        → Canonical D.Drain drain.old drain.new
        (extract_bytes all_parents (box_area area)) b result }
    // The bytes of all feeds have one SHA-256 digest: no files that differ, unless two different lists share a digest.
    ensures digests { OnOk result (SameDigest (F.remaining first.old) (G.remaining second.old)
        × SameDigest (F.remaining first.old) (H.remaining third.old)
        × SameDigest (F.remaining first.old) (I.remaining fourth.old)) }
    // `Refused` names the first fault of the first feed's file, or that its header can't be written, and the drain took nothing. `Read`
    // and `Write` come only if a count of failures rose: of a feed, of the drain. `Changed(2)`, `Changed(3)`: the second or
    // third feed's bytes aren't the first's, and the drain took nothing. `Changed(4)`: the fourth's aren't. No other number comes.
    ensures stops { IfErr result (StopsPasses judged_writable (fed F.Feed first.old first.new)
        (fed G.Feed second.old second.new ∷ fed H.Feed third.old third.new
        ∷ fed I.Feed fourth.old fourth.new ∷ []) (drained D.Drain drain.old drain.new)) }
{
    Ok(
        extract_parents_with_receipt(
            alloc, first, second, third, fourth, area, drain, hasher,
        )?.counts,
    )
}

/// Like [`extract_parents`], and returns the digest of what was read, as [`extract_with_receipt`] does.
pub fn extract_parents_with_receipt<
    F: Feed,
    G: Feed,
    H: Feed,
    I: Feed,
    D: Drain,
    S: BuildHasher + Drop,
>(
    alloc: Global,
    first: &mut F,
    second: &mut G,
    third: &mut H,
    fourth: &mut I,
    area: BoundingBox,
    drain: &mut D,
    hasher: S,
) -> Result<InputReceipt, Halt>
    // Each feed gave a file, of the digest `input` by the check, to its end. If they are the same, the drain took exactly its complete-ways
    // extract with all parents. However it ends: what is refused, why it stops, what went out by then, and that the devices are kept.
    ensures extracts { Extracts all_parents (box_area area) (fed F.Feed first.old first.new)
        (fed G.Feed second.old second.new ∷ fed H.Feed third.old third.new ∷ [])
        (fed I.Feed fourth.old fourth.new ∷ [])
        (drained D.Drain drain.old drain.new) check.Sha256 result }
    // Each feed was read.
    ensures spared { IfOk result (λ receipt. receipt.spared ≡ false) }
{
    let passes = Passes {
        alloc,
        check: PassCheck::Sha256,
    };
    cut_parents::<BoundingBox, NodeIds, F, G, H, I, D, S>(
        passes, first, second, third, fourth, area, drain, hasher,
    )
}
