//! Which of several first phases take a way: those that may have one of its refs among their nodes.

ghost use Rattle.std.specs.Prelude.{◌≡◌, ◌<◌, ◌+◌, ◌^◌, ℕ, false, true, IfOk, OnOk, length, map};
ghost use Rattle.std.specs.List.{AllByRecursion, AllZip};
ghost use Rattle.osm_entity.specs.Entity.{way};
ghost use Rattle.osm_ids.specs.Strips.{StillNames};
ghost use Rattle.osm_ways.specs.InArea.{stepped};
ghost use Rattle.osm_ways.specs.Seen.{seen_refs, seen_way};
ghost use Rattle.pbf_block.specs.Runs.{way_from};
ghost use Rattle.pbf_pass.specs.EachArea.{CanSkip, CanSkipEach, FindsNobody, IsUnmade, MarksWay, NamesEachSet, SkipsWays, StripsFindAll, member_ids};
ghost use Rattle.pbf_pass.specs.Pass.{with_seen_in};
ghost use Rattle.pbf_pass.specs.declared.way_strips.WayStrips.TheVariants.{Made};

use crate::each::gather_way_each;
use crate::pass::seen;
use osm_area::{Area, AreaStrips};
use osm_ids::IdStrips;
use osm_ways::{InArea, NodeTaker, SeenWay, mark_ids};
use pbf_block::Unmade;
use std::alloc::{AllocError, Global};

/// Strips of the ids of phases' nodes, and which phases take a way.
#[derive(Drop)]
pub(crate) struct MadeStrips {
    /// They name the phases by their numbers.
    strips: IdStrips,
    /// For each phase whether it takes the way. All are cleared before the next one.
    marks: Vec<bool>,
}

/// Strips of the ids of phases' nodes. They are made at most once: otherwise a file that alternates nodes and ways would have them made for
/// each way.
#[derive(Drop)]
pub(crate) enum WayStrips {
    /// They are made at the first way, of this memory.
    Unmade(Global),
    /// They are made, and only ways came since.
    Made(MadeStrips),
    /// They are not made any more: there are few areas, or a node or a relation came after a way.
    Never,
}

impl WayStrips {
    /// They will be made at the first way, of this memory, if the strips of the areas are.
    pub(crate) fn if_many(areas: &Option<AreaStrips>, alloc: Global) -> WayStrips
        ensures { IsUnmade result }
    {
        match areas {
            Some(_) => WayStrips::Unmade(alloc),
            None => WayStrips::Never,
        }
    }

    /// Marks the phases that may have one of the way's refs; `false` means that there are none, so that the way changes nothing. `true` says
    /// nothing, and others may be marked too. `take_way_each` must take the same way then.
    pub(crate) fn mark_way(&mut self, unmade: &Unmade<'_>) -> bool
        ensures marked { MarksWay (way_from unmade.now).refs self.old self.new }
        ensures none { result ≡ false → FindsNobody (way_from unmade.now).refs self.old }
    {
        match self {
            WayStrips::Made(made) => {
                mark_ids(&made.strips, unmade.refs(), made.marks.as_mut_slice())
            }
            WayStrips::Unmade(_) | WayStrips::Never => true,
        }
    }

    /// A node or a relation comes: if strips are made, they are dropped.
    pub(crate) fn drop_made(&mut self)
        ensures { IsUnmade self.new }
    {
        let is_made = matches!(self, WayStrips::Made(_));
        if is_made {
            *self = WayStrips::Never;
        }
    }
}

/// Takes a way by a phase if it is marked, and clears the mark.
#[inline(always)]
fn take_if_marked<A: Area, P: NodeTaker>(
    member: &mut InArea<A, P>,
    mark: &mut bool,
    way: &SeenWay<'_>,
) -> Result<(), AllocError>
    requires { CanSkip P.step P.inside (seen_refs way.now) member.old mark.old }
    ensures taken { OnOk result (member.new ≡ stepped P.step member.old (seen_refs way.now)) }
    ensures skips { OnOk result (SkipsWays P.step P.inside member.new) }
    ensures inside { OnOk result
        (P.inside member.new.phase ≡ P.inside member.old.phase) }
{
    if !*mark {
        return Ok(());
    }
    *mark = false;
    member.phase.take_refs(*way)
}

/// Takes a way by the phases that are marked, and clears the marks.
fn take_marked<A: Area, P: NodeTaker>(
    members: &mut [InArea<A, P>],
    marks: &mut [bool],
    way: &SeenWay<'_>,
) -> Result<(), AllocError>
    requires { AllZip (CanSkip P.step P.inside (seen_refs way.now)) members.old marks.old }
    ensures taken { OnOk result (members.new
        ≡ map (λ of. stepped P.step of (seen_refs way.now)) members.old) }
    ensures skips { OnOk result (AllByRecursion (SkipsWays P.step P.inside) members.new) }
    ensures inside { OnOk result
        (member_ids P.inside members.new ≡ member_ids P.inside members.old) }
{
    let Some((member, others)) = members.split_first_mut() else {
        return Ok(());
    };
    let Some((mark, later)) = marks.split_first_mut() else {
        return Ok(());
    };
    take_if_marked(member, mark, way)?;
    take_marked(others, later, way)
}

/// Names phases, whose numbers count from this one, for the nodes in their areas.
fn add_each<A: Area, P: NodeTaker>(
    strips: &mut IdStrips,
    number: usize,
    members: &[InArea<A, P>],
) -> Result<(), AllocError>
    requires { number + length members.now < 2 ^ 64 }
    ensures named { OnOk result
        (NamesEachSet strips.new number (member_ids P.inside members.now)) }
    ensures still { OnOk result (StillNames strips.old strips.new) }
{
    let Some((member, others)) = members.split_first() else {
        return Ok(());
    };
    strips.add(number, member.phase.ids())?;
    add_each(strips, number + 1, others)
}

/// How many ids of nodes these phases have together, at most the greatest number: only speed and space depend on it.
fn count_inside<A: Area, P: NodeTaker>(members: &[InArea<A, P>]) -> u64 {
    let Some((member, others)) = members.split_first() else {
        return 0;
    };
    count_inside(others).saturating_add(member.phase.ids().count())
}

/// Takes a way by each of the phases, and makes the strips.
fn take_and_name<A: Area, P: NodeTaker>(
    alloc: Global,
    members: &mut [InArea<A, P>],
    way: &SeenWay<'_>,
) -> Result<MadeStrips, AllocError>
    ensures taken { OnOk result (members.new
        ≡ map (λ of. stepped P.step of (seen_refs way.now)) members.old) }
    ensures find { IfOk result (λ made. StripsFindAll P.step P.inside members.new (Made made)) }
{
    let mut marks = vec![in alloc; true; members.len()]?;
    take_marked(members, marks.as_mut_slice(), way)?;
    let mut strips = IdStrips::new(alloc, count_inside(members));
    add_each(&mut strips, 0, members)?;
    Ok(MadeStrips { strips, marks })
}

/// Takes a way by the phases that are marked.
fn take_named<A: Area, P: NodeTaker>(
    members: &mut [InArea<A, P>],
    made: MadeStrips,
    way: &SeenWay<'_>,
) -> Result<MadeStrips, AllocError>
    requires { CanSkipEach P.step P.inside (seen_refs way.now) members.old (Made made) }
    ensures taken { OnOk result (members.new
        ≡ map (λ of. stepped P.step of (seen_refs way.now)) members.old) }
    ensures find { IfOk result (λ made. StripsFindAll P.step P.inside members.new (Made made)) }
{
    let MadeStrips { strips, mut marks } = made;
    take_marked(members, marks.as_mut_slice(), way)?;
    Ok(MadeStrips { strips, marks })
}

/// Takes a way by the phases that are marked, or by each of them if no strips are made, which may be made then.
pub(crate) fn take_way_each<A: Area, P: NodeTaker>(
    members: &mut [InArea<A, P>],
    strips: WayStrips,
    unmade: &Unmade<'_>,
) -> Result<WayStrips, AllocError>
    requires { CanSkipEach P.step P.inside (seen_way (way_from unmade.now)) members.old strips }
    ensures taken { OnOk result (members.new
        ≡ map (λ of. with_seen_in A.area P.step of (way (way_from unmade.now))) members.old) }
    ensures find { IfOk result (StripsFindAll P.step P.inside members.new) }
{
    match strips {
        WayStrips::Unmade(alloc) => {
            let made = take_and_name(alloc, members, &seen(unmade))?;
            Ok(WayStrips::Made(made))
        }
        WayStrips::Made(made) => {
            let made = take_named(members, made, &seen(unmade))?;
            Ok(WayStrips::Made(made))
        }
        WayStrips::Never => {
            gather_way_each(members, unmade)?;
            Ok(WayStrips::Never)
        }
    }
}
