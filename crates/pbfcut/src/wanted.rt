//! What several areas want of a block: it is read once to find that, and not once for each area.

ghost use Rattle.std.specs.Prelude.{◌≡◌, List, [], ◌∷◌, ◌++◌, IfOk, IfSome, OnOk, length, map};
ghost use Rattle.std.specs.List.{AllByRecursion};
ghost use Rattle.osm_entity.specs.Entity.{EntitySpec, node, relation};
ghost use Rattle.osm_ways.specs.ChoiceStrips.{NamesChoice};
ghost use Rattle.pbf_block.specs.Runs.{joined_runs, node_from, relation_from, run_entities, runs_left};
ghost use Rattle.pbf_dense.specs.Cursors.{dense_left};
ghost use Rattle.pbfcut.specs.Several.{AllThree};
ghost use Rattle.pbfcut.specs.Wanted.{AllFrom, IsShared, MarksTakers, WantedLists};

use crate::carrying::AreaChoice;
use osm_entity::Refs;
use osm_ways::{ChoiceStrips, mark_ids};
use pbf_block::{Run, Runs, Unmade};
use pbf_dense::Dense;
use std::alloc::{AllocError, Global};

/// At most so many runs are listed: a block of which more is wanted is read for each area by itself.
const MOST_LISTED: usize = 100_000;

/// How many ids these choices have together, at most the greatest number: only speed and space depend on it.
fn count_chosen(choices: &[AreaChoice]) -> u64 {
    let Some((choice, others)) = choices.split_first() else {
        return 0;
    };
    count_chosen(others).saturating_add(choice.chosen.count())
}

/// The strips of these choices, which have the numbers of their places.
pub(crate) fn name_choices(
    alloc: Global,
    choices: &[AreaChoice],
) -> Result<ChoiceStrips, AllocError>
    ensures { IfOk result (λ strips.
        AllFrom (λ number choice. NamesChoice strips number choice.chosen) 0 choices.now) }
{
    let mut strips = ChoiceStrips::new(alloc, count_chosen(choices));
    'choices: for number in 0..choices.len() {
        strips.add(number, &choices[number].chosen)?;
    }
    Ok(strips)
}

/// Marks the choices that may keep a node of a dense message; `false` means that there are none. `true` says nothing, and others may be marked
/// too.
fn mark_dense(strips: &ChoiceStrips, dense: &Dense<'_>, marks: &mut [bool]) -> bool
    ensures { MarksTakers strips.now (map node (dense_left dense.now)) marks.old marks.new result }
{
    mark_ids(&strips.nodes, Refs::Summed(dense.ids()), marks)
}

/// The same of a node that is not made yet. It is a call, so that its room is cleared only here.
#[inline(never)]
fn mark_node(strips: &ChoiceStrips, unmade: &Unmade<'_>, marks: &mut [bool]) -> bool
    ensures { MarksTakers strips.now (node (node_from unmade.now) ∷ [])
        marks.old marks.new result }
{
    strips.nodes.mark(unmade.node().id(), marks)
}

/// The same of a relation.
#[inline(never)]
fn mark_relation(strips: &ChoiceStrips, unmade: &Unmade<'_>, marks: &mut [bool]) -> bool
    ensures { MarksTakers strips.now (relation (relation_from unmade.now) ∷ [])
        marks.old marks.new result }
{
    strips.mark_relation(&unmade.relation(), marks)
}

/// Marks the choices that may keep something of a run; `false` means that there are none. `true` says nothing, and others may be marked too.
fn mark_run(strips: &ChoiceStrips, run: &Run<'_>, marks: &mut [bool]) -> bool
    ensures { MarksTakers strips.now (run_entities run.now) marks.old marks.new result }
{
    match run {
        Run::Nothing => false,
        Run::Node(unmade) => mark_node(strips, unmade, marks),
        Run::Way(unmade) => {
            let (id, _) = unmade.id_and_refs();
            strips.ways.mark(id, marks)
        }
        Run::Relation(unmade) => mark_relation(strips, unmade, marks),
        Run::Dense(unmade) => mark_dense(strips, &unmade.nodes(), marks),
    }
}

/// Adds a run to a list if that is marked, clears the mark, and counts it. Nothing of runs matters here.
fn share_with<T: Copy>(
    run: &T,
    list: &mut Vec<T>,
    mark: &mut bool,
    listed: &mut usize,
) -> Result<(), AllocError>
    ensures { OnOk result (IsShared run.now mark.old list.old list.new) }
{
    if !*mark {
        return Ok(());
    }
    *mark = false;
    *listed = listed.saturating_add(1);
    list.push(*run)?;
    Ok(())
}

/// The same of all lists and their marks.
fn share<T: Copy>(
    run: &T,
    lists: &mut [Vec<T>],
    marks: &mut [bool],
    listed: &mut usize,
) -> Result<(), AllocError>
    requires { length marks.old ≡ length lists.old }
    ensures shared { OnOk result (AllThree (IsShared run.now) marks.old lists.old lists.new) }
    ensures as_many { OnOk result (length marks.new ≡ length marks.old) }
{
    let Some((list, later)) = lists.split_first_mut() else {
        return Ok(());
    };
    let Some((mark, more)) = marks.split_first_mut() else {
        return Ok(());
    };
    share_with(run, list, mark, listed)?;
    share(run, later, more, listed)
}

/// Adds a run to the lists of the choices that may keep something of it, and says to how many.
fn list_run<'a>(
    strips: &ChoiceStrips,
    run: &Run<'a>,
    lists: &mut [Vec<Run<'a>>],
    marks: &mut [bool],
) -> Result<usize, AllocError>
    requires { length marks.old ≡ length lists.old }
    ensures wanted { OnOk result ((es : List EntitySpec) → WantedLists strips.now es lists.old
        → WantedLists strips.now (es ++ run_entities run.now) lists.new) }
    ensures lists { OnOk result (length lists.new ≡ length lists.old) }
    ensures marks { OnOk result (length marks.new ≡ length marks.old) }
{
    let mut listed = 0;
    let some = mark_run(strips, run, marks);
    if some {
        share(run, lists, marks, &mut listed)?;
    }
    Ok(listed)
}

/// For each of so many choices the runs of which it may keep something, in their order; `None` if they are too many.
pub(crate) fn wanted_each<'a>(
    alloc: Global,
    strips: &ChoiceStrips,
    count: usize,
    runs: Runs<'a>,
) -> Result<Option<Vec<Vec<Run<'a>>>>, AllocError>
    ensures wanted { IfOk result (λ found. IfSome found (λ lists. WantedLists strips.now
        (joined_runs (runs_left runs.entry)) lists.items)) }
    ensures as_many { IfOk result (λ found. IfSome found (λ lists. length lists.items ≡ count)) }
{
    let mut lists = empty_lists(alloc, count)?;
    let mut marks = vec![in alloc; false; count]?;
    let mut listed: usize = 0;
    for run in runs {
        let more = list_run(strips, &run, &mut lists, &mut marks)?;
        listed = listed.saturating_add(more);
        if listed > MOST_LISTED {
            return Ok(None);
        }
    }
    Ok(Some(lists))
}

/// So many empty lists.
fn empty_lists<'a>(alloc: Global, count: usize) -> Result<Vec<Vec<Run<'a>>>, AllocError>
    ensures many { IfOk result (λ lists. length lists.items ≡ count) }
    ensures empty { IfOk result (λ lists. AllByRecursion (λ list. list.items ≡ []) lists.items) }
{
    let mut lists = Vec::new(alloc);
    'lists: while lists.len() < count {
        lists.push(Vec::new(alloc))?;
    }
    Ok(lists)
}
