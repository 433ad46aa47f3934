//! The passes before the one that writes, for several areas at once, with all parents: one more takes the relations.

ghost use Rattle.std.specs.Prelude.{[], ◌∷◌, IfErr, IfOk};
ghost use Rattle.std.specs.List.{AllZip};
ghost use Rattle.pbf_frame.specs.Keeps.{KeepsFeed};
ghost use Rattle.pbf_header.specs.Header.{header_of};
ghost use Rattle.pbf_pass.specs.Given.{GaveFile};
ghost use Rattle.pbf_pass.specs.Hashing.{mark_by};
ghost use Rattle.pbf_pass.specs.HeaderLimit.{judged_writable};
ghost use Rattle.pbfcut.specs.Calls.{fed, GaveBy, GaveOrNot, KeepsAll};
ghost use Rattle.pbfcut.specs.Choosing.{StopsChoosing};
ghost use Rattle.pbfcut.specs.ChoosingEach.{BeginsParents, ChoseParents, EndsTakingAll, IsParentsChoice, IsRelationsOf, IsSoundFile};
ghost use Rattle.pbfcut.specs.Repeat.{IsPass};

use crate::area_phase::{AreaPhase, are_done};
use crate::carrying::{AreaChoice, AreaOutput};
use crate::choosing_each::{ChoiceEach, begin_phases};
use crate::repeat::LaterPass;
use osm_area::Area;
use osm_ways::{FoundRelations, InArea, RelationPhase, RelationTaker, WayPhase};
use pbf_frame::Feed;
use pbf_header::Header;
use pbf_pass::{Each, EachArea, Halt, Passes, judge, writable_header};
use std::alloc::{AllocError, Global};

/// What follows a first phase: the phase of ways, what relations gave, and the header with the area's box.
fn end_taking_all<A: Area + Drop, P: RelationTaker + Drop>(
    alloc: Global,
    header: &Header,
    taking: InArea<A, P>,
) -> Result<AreaPhase<WayPhase, FoundRelations>, AllocError>
    ensures { IfOk result (EndsTakingAll A.area P.start P.step P.has_ways P.ended P.found
        (header_of header.now) taking) }
{
    let is_done = taking.phase.has_all_ways();
    let header = header.for_box(alloc, taking.area.bounds())?;
    let (gathering, found) = taking.end_all()?;
    Ok(AreaPhase {
        gathering,
        is_done,
        header,
        found,
    })
}

/// What follows each of these first phases.
#[tactic(auto, using(crate::proofs::SeveralLemmas::zip_more))]
fn end_all_takings<A: Area + Drop, P: RelationTaker + Drop>(
    alloc: Global,
    header: &Header,
    takings: Vec<InArea<A, P>>,
) -> Result<Vec<AreaPhase<WayPhase, FoundRelations>>, AllocError>
    ensures { IfOk result (λ phases. AllZip (EndsTakingAll A.area P.start P.step P.has_ways
        P.ended P.found (header_of header.now)) takings.items phases.items) }
{
    let mut phases = Vec::new(alloc);
    'takings: for taking in takings {
        phases.push(end_taking_all(alloc, header, taking)?)?;
    }
    Ok(phases)
}

/// The phases of relations that follow these of ways.
#[tactic(auto, using(crate::proofs::SeveralLemmas::zip_more))]
fn relations_of(
    alloc: Global,
    phases: Vec<AreaPhase<WayPhase, FoundRelations>>,
) -> Result<Vec<AreaPhase<RelationPhase, ()>>, AllocError>
    ensures { IfOk result (λ later. AllZip IsRelationsOf phases.items later.items) }
{
    let mut later = Vec::new(alloc);
    'phases: for phase in phases {
        let AreaPhase {
            gathering,
            is_done,
            header,
            found,
        } = phase;
        let gathering = gathering.end_with(found)?;
        later.push(AreaPhase {
            gathering,
            is_done,
            header,
            found: (),
        })?;
    }
    Ok(later)
}

/// What was chosen in each of these phases.
#[tactic(auto, using(crate::proofs::SeveralLemmas::zip_more))]
fn parents_choices(
    alloc: Global,
    phases: Vec<AreaPhase<RelationPhase, ()>>,
) -> Result<Vec<AreaChoice>, AllocError>
    ensures { IfOk result (λ choices. AllZip IsParentsChoice phases.items choices.items) }
{
    let mut choices = Vec::new(alloc);
    'phases: for phase in phases {
        let AreaPhase {
            gathering,
            header,
            ..
        } = phase;
        let chosen = gathering.end_relations()?.into_chosen();
        choices.push(AreaChoice { chosen, header })?;
    }
    Ok(choices)
}

/// What the first pass reports of all areas.
#[derive(Drop)]
struct BegunParents {
    /// The phases that follow.
    phases: Vec<AreaPhase<WayPhase, FoundRelations>>,
    /// The digest of the bytes.
    digest: [u8; 32],
}

/// The first pass, as without parents, which may take all ways and all relations too.
fn begin_parents_each<A: Area + Copy, P: RelationTaker + Drop, F: Feed, D>(
    passes: Passes,
    outputs: &[AreaOutput<A, D>],
    feed: &mut F,
) -> Result<BegunParents, Halt>
    ensures begun { IfOk result (λ begun. GaveFile F.Feed feed.old feed.new
        (mark_by passes.check begun.digest) (λ b. IsSoundFile b × AllZip
        (BeginsParents A.area P.start P.step P.has_ways P.ended P.found b)
        outputs.now begun.phases.items)) }
    ensures halts { IfErr result
        (StopsChoosing judged_writable (fed F.Feed feed.old feed.new) [] passes.check) }
    ensures keeps { KeepsFeed F.Feed feed.old feed.new }
{
    let takings = begin_phases::<A, P, D>(passes.alloc, outputs)?;
    let mut each = EachArea::new(passes.alloc, takings)?;
    let judged = judge(passes, feed, &mut each)?;
    let header = writable_header(&judged)?;
    let phases = end_all_takings(passes.alloc, header, each.into_members())?;
    Ok(BegunParents {
        phases,
        digest: judged.digest,
    })
}

/// The passes before the one that writes: the first judges the file and takes the nodes of each area, and maybe all ways and relations too. If
/// it hasn't, the second takes the ways, and the third the relations; otherwise there is neither.
pub(crate) fn choose_parents_each<
    A: Area + Copy,
    P: RelationTaker + Drop,
    F: Feed,
    G: Feed,
    H: Feed,
    D,
>(
    passes: Passes,
    outputs: &[AreaOutput<A, D>],
    first: &mut F,
    second: &mut G,
    third: &mut H,
) -> Result<ChoiceEach, Halt>
    ensures chosen { IfOk result (λ choice. GaveBy (fed F.Feed first.old first.new)
        (mark_by passes.check choice.next.digest)
        (λ b. GaveOrNot (fed G.Feed second.old second.new) choice.spared
        (mark_by passes.check choice.next.digest) b
        (λ c. GaveOrNot (fed H.Feed third.old third.new) choice.spared
        (mark_by passes.check choice.next.digest) b
        (λ e. AllZip (ChoseParents A.area b c e) outputs.now choice.choices.items)))) }
    ensures next { IfOk result (λ choice. IsPass 4 passes choice.next) }
    ensures halts { IfErr result (StopsChoosing judged_writable (fed F.Feed first.old first.new)
        (fed G.Feed second.old second.new ∷ fed H.Feed third.old third.new ∷ []) passes.check) }
    ensures feeds { KeepsAll (fed F.Feed first.old first.new
        ∷ fed G.Feed second.old second.new ∷ fed H.Feed third.old third.new ∷ []) }
{
    let begun = begin_parents_each::<A, P, F, D>(passes, outputs, first)?;
    let digest = begun.digest;
    let again = LaterPass {
        number: 2,
        digest,
        passes,
    };
    let spared = are_done(&begun.phases);
    let mut each = Each::new(begun.phases);
    again.gather_rest(second, &mut each, spared)?;
    let mut later = Each::new(relations_of(passes.alloc, each.into_members())?);
    let more = LaterPass { number: 3, ..again };
    more.gather_rest(third, &mut later, spared)?;
    let choices = parents_choices(passes.alloc, later.into_members())?;
    Ok(ChoiceEach {
        choices,
        next: LaterPass { number: 4, ..again },
        spared,
    })
}
