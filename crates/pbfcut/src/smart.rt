//! The smart extract: that with all parents, and with the members of relations that are wanted whole.

ghost use Rattle.std.specs.Prelude.{[], ◌∷◌, IfOk};
ghost use Rattle.osm_ways.specs.Selection.{smart};
ghost use Rattle.osm_ways.specs.Whole.{is_wanted};
ghost use Rattle.pbf_header.specs.Header.{header_of};
ghost use Rattle.pbf_pass.specs.Hashing.{mark_by};
ghost use Rattle.pbf_pass.specs.SortedFile.{judged_sorted};
ghost use Rattle.pbfcut.specs.Calls.{drained, fed, GaveBy, GaveOrNot};
ghost use Rattle.pbfcut.specs.Choosing.{EndsChoosing};
ghost use Rattle.pbfcut.specs.Extracting.{IsChoiceWithMembers};
ghost use Rattle.pbfcut.specs.Receipts.{Extracts};

use crate::extracting::{Choice, begin};
use crate::repeat::LaterPass;
use osm_area::Area;
use osm_ways::{InArea, NodeTaker, SortedPhase, WholeTypes};
use pbf_frame::{Drain, Feed};
use pbf_pass::{Halt, InputReceipt, Passes};
use std::hash::BuildHasher;

/// The passes before the one that writes: the first judges the file and takes nodes, ways and relations; the second takes the refs of the ways
/// that were added, and isn't made if there are none.
fn choose_members<A: Area + Copy, F: Feed, G: Feed>(
    passes: Passes,
    area: A,
    types: WholeTypes,
    first: &mut F,
    second: &mut G,
) -> Result<Choice, Halt>
    ensures chosen { IfOk result (λ choice. GaveBy (fed F.Feed first.old first.new)
        (mark_by passes.check choice.next.digest)
        (λ b. GaveOrNot (fed G.Feed second.old second.new) choice.spared
        (mark_by passes.check choice.next.digest) b
        (λ c. IsChoiceWithMembers (is_wanted types) (A.area area) b c choice.chosen
        (header_of choice.header)))) }
    ensures ends { EndsChoosing judged_sorted (fed F.Feed first.old first.new)
        (fed G.Feed second.old second.new ∷ []) passes result }
{
    let mut taking = InArea::<A, SortedPhase>::wanting(passes.alloc, area, types);
    let begun = begin(passes, first, &mut taking)?;
    if !taking.phase.has_all_ways() {
        return Err(begun.unsorted);
    }
    let digest = begun.digest;
    let again = LaterPass {
        number: 2,
        digest,
        passes,
    };
    let (ways, found) = taking.end_all()?;
    let mut members = ways.end_with(found)?.begin_members()?;
    let spared = members.has_all_refs();
    again.gather_rest(second, &mut members, spared)?;
    let chosen = members.end_members()?;
    Ok(Choice {
        chosen,
        header: begun.header,
        next: LaterPass { number: 3, ..again },
        spared,
    })
}

/// Writes the smart extract of the area: what [`extract_parents_with_receipt`](crate::extract_parents_with_receipt) writes, and all nodes
/// and ways of each relation of these types that has a kept node or way as a member, with all nodes of these ways. What is added selects
/// nothing else.
///
/// There are two passes, or three if such a relation has a way: the second feed is read only then. A file that isn't sorted by type, first
/// nodes, then ways, then relations, is refused as `Unsorted`, at its header. Otherwise it does what that call does.
///
/// Space: besides that of an extract with all parents, the ids of the nodes and ways that are added.
pub fn extract_smart_with_receipt<
    A: Area + Copy,
    F: Feed,
    G: Feed,
    H: Feed,
    D: Drain,
    S: BuildHasher + Drop,
>(
    passes: Passes,
    first: &mut F,
    second: &mut G,
    third: &mut H,
    area: A,
    types: WholeTypes,
    drain: &mut D,
    hasher: S,
) -> Result<InputReceipt, Halt>
    // Each feed gave a file, of the digest `input` by the check, to its end, unless the second was spared. If they are the same, the drain took
    // exactly its smart extract. However it ends: what is refused, why it stops, what went out by then, and that the devices are kept.
    ensures { Extracts (smart (is_wanted types)) (A.area area)
        (fed F.Feed first.old first.new) (fed G.Feed second.old second.new ∷ [])
        (fed H.Feed third.old third.new ∷ []) (drained D.Drain drain.old drain.new)
        passes.check result }
{
    let choice = choose_members(passes, area, types, first, second)?;
    choice.write(third, drain, hasher)
}
