//! The passes before the one that writes, for several areas at once: what is kept of each, and its header.

ghost use Rattle.std.specs.Prelude.{[], ◌∷◌, IfErr, IfOk};
ghost use Rattle.std.specs.List.{AllZip};
ghost use Rattle.pbf_frame.specs.Keeps.{KeepsFeed};
ghost use Rattle.pbf_header.specs.Header.{header_of};
ghost use Rattle.pbf_pass.specs.Given.{GaveFile};
ghost use Rattle.pbf_pass.specs.Hashing.{mark_by};
ghost use Rattle.pbf_pass.specs.HeaderLimit.{judged_writable};
ghost use Rattle.pbfcut.specs.Calls.{fed, GaveBy, GaveOrNot, KeepsAll};
ghost use Rattle.pbfcut.specs.Choosing.{StopsChoosing};
ghost use Rattle.pbfcut.specs.ChoosingEach.{BeginsArea, ChoseWays, EndsTaking, IsFreshTaking, IsSoundFile, IsWaysChoice};
ghost use Rattle.pbfcut.specs.Repeat.{IsPass};

use crate::area_phase::{AreaPhase, are_done};
use crate::carrying::{AreaChoice, AreaOutput};
use crate::repeat::LaterPass;
use osm_area::Area;
use osm_ways::{InArea, NodeTaker, WayPhase};
use pbf_frame::Feed;
use pbf_header::Header;
use pbf_pass::{Each, EachArea, Halt, Passes, judge, writable_header};
use std::alloc::{AllocError, Global};

/// What the passes before the one that writes report of all areas.
#[derive(Drop)]
pub(crate) struct ChoiceEach {
    /// What is kept of each area, and its header.
    pub(crate) choices: Vec<AreaChoice>,
    /// The pass that comes next, with the digest of the first.
    pub(crate) next: LaterPass,
    /// Whether the passes between the first and the one that writes were not made, since the first was enough for all areas.
    pub(crate) spared: bool,
}

/// The first phases of these areas, with no entities yet.
#[tactic(auto, using(crate::proofs::SeveralLemmas::zip_more))]
pub(crate) fn begin_phases<A: Area + Copy, P: NodeTaker + Drop, D>(
    alloc: Global,
    outputs: &[AreaOutput<A, D>],
) -> Result<Vec<InArea<A, P>>, AllocError>
    ensures { IfOk result (λ takings. AllZip
        (IsFreshTaking P.start P.step P.has_ways P.ended) outputs.now takings.items) }
{
    let mut takings = Vec::new(alloc);
    'outputs: for output in outputs {
        takings.push(InArea::new(alloc, output.area))?;
    }
    Ok(takings)
}

/// What follows a first phase: the phase of ways, and the header with the area's box.
fn end_taking<A: Area + Drop, P: NodeTaker + Drop>(
    alloc: Global,
    header: &Header,
    taking: InArea<A, P>,
) -> Result<AreaPhase<WayPhase, ()>, AllocError>
    ensures { IfOk result (EndsTaking A.area P.has_ways P.ended (header_of header.now) taking) }
{
    let is_done = taking.phase.has_all_ways();
    let header = header.for_box(alloc, taking.area.bounds())?;
    let gathering = taking.end_nodes()?;
    Ok(AreaPhase {
        gathering,
        is_done,
        header,
        found: (),
    })
}

/// What follows each of these first phases.
#[tactic(auto, using(crate::proofs::SeveralLemmas::zip_more))]
fn end_takings<A: Area + Drop, P: NodeTaker + Drop>(
    alloc: Global,
    header: &Header,
    takings: Vec<InArea<A, P>>,
) -> Result<Vec<AreaPhase<WayPhase, ()>>, AllocError>
    ensures { IfOk result (λ phases. AllZip
        (EndsTaking A.area P.has_ways P.ended (header_of header.now)) takings.items phases.items) }
{
    let mut phases = Vec::new(alloc);
    'takings: for taking in takings {
        phases.push(end_taking(alloc, header, taking)?)?;
    }
    Ok(phases)
}

/// What was chosen in each of these phases.
#[tactic(auto, using(crate::proofs::SeveralLemmas::zip_more))]
fn choices_of(
    alloc: Global,
    phases: Vec<AreaPhase<WayPhase, ()>>,
) -> Result<Vec<AreaChoice>, AllocError>
    ensures { IfOk result (λ choices. AllZip IsWaysChoice phases.items choices.items) }
{
    let mut choices = Vec::new(alloc);
    'phases: for phase in phases {
        let AreaPhase {
            gathering,
            header,
            ..
        } = phase;
        let chosen = gathering.end_ways()?;
        choices.push(AreaChoice { chosen, header })?;
    }
    Ok(choices)
}

/// What the first pass reports of all areas.
#[derive(Drop)]
struct BegunEach {
    /// The phases that follow.
    phases: Vec<AreaPhase<WayPhase, ()>>,
    /// The digest of the bytes.
    digest: [u8; 32],
}

/// The first pass, which judges the file once, takes the nodes that lie in each of the areas, and makes the headers of the extracts.
fn begin_each<A: Area + Copy, P: NodeTaker + Drop, F: Feed, D>(
    passes: Passes,
    outputs: &[AreaOutput<A, D>],
    feed: &mut F,
) -> Result<BegunEach, Halt>
    ensures begun { IfOk result (λ begun. GaveFile F.Feed feed.old feed.new
        (mark_by passes.check begun.digest) (λ b. IsSoundFile b × AllZip
        (BeginsArea A.area P.start P.step P.has_ways P.ended b) outputs.now begun.phases.items)) }
    ensures halts { IfErr result
        (StopsChoosing judged_writable (fed F.Feed feed.old feed.new) [] passes.check) }
    ensures keeps { KeepsFeed F.Feed feed.old feed.new }
{
    let takings = begin_phases::<A, P, D>(passes.alloc, outputs)?;
    let mut each = EachArea::new(passes.alloc, takings)?;
    let judged = judge(passes, feed, &mut each)?;
    let header = writable_header(&judged)?;
    let phases = end_takings(passes.alloc, header, each.into_members())?;
    Ok(BegunEach {
        phases,
        digest: judged.digest,
    })
}

/// The passes before the one that writes: the first judges the file and takes the nodes of each area, and maybe all ways too. If it hasn't, the
/// second takes the ways; otherwise there is no second.
pub(crate) fn choose_each<A: Area + Copy, P: NodeTaker + Drop, F: Feed, G: Feed, D>(
    passes: Passes,
    outputs: &[AreaOutput<A, D>],
    first: &mut F,
    second: &mut G,
) -> Result<ChoiceEach, Halt>
    ensures chosen { IfOk result (λ choice. GaveBy (fed F.Feed first.old first.new)
        (mark_by passes.check choice.next.digest)
        (λ b. GaveOrNot (fed G.Feed second.old second.new) choice.spared
        (mark_by passes.check choice.next.digest) b
        (λ c. AllZip (ChoseWays A.area b c) outputs.now choice.choices.items))) }
    ensures next { IfOk result (λ choice. IsPass 3 passes choice.next) }
    ensures halts { IfErr result (StopsChoosing judged_writable
        (fed F.Feed first.old first.new) (fed G.Feed second.old second.new ∷ []) passes.check) }
    ensures feeds { KeepsAll (fed F.Feed first.old first.new
        ∷ fed G.Feed second.old second.new ∷ []) }
{
    let begun = begin_each::<A, P, F, D>(passes, outputs, first)?;
    let digest = begun.digest;
    let again = LaterPass {
        number: 2,
        digest,
        passes,
    };
    let spared = are_done(&begun.phases);
    let mut each = Each::new(begun.phases);
    again.gather_rest(second, &mut each, spared)?;
    let choices = choices_of(passes.alloc, each.into_members())?;
    Ok(ChoiceEach {
        choices,
        next: LaterPass { number: 3, ..again },
        spared,
    })
}
