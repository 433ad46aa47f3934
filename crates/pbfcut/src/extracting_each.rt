//! Several extracts of one file: it is judged once, and read once to write all of them.

ghost use Rattle.std.specs.Prelude.{◌≡◌, ◌+◌, [], ◌∷◌, IfOk, length};
ghost use Rattle.std.specs.List.{AllByRecursion};
ghost use Rattle.osm_ways.specs.Selection.{all_parents, complete_ways};
ghost use Rattle.pbf_header.specs.Header.{header_of};
ghost use Rattle.pbf_pass.specs.HeaderLimit.{HasShortTexts};
ghost use Rattle.pbfcut.specs.Calls.{fed, used};
ghost use Rattle.pbfcut.specs.EachReceipts.{ExtractsAreas, ExtractsEach, each_strategy, stop_result};
ghost use Rattle.pbfcut.specs.Several.{WritesEach};
ghost use Rattle.pbfcut.specs.Tasks.{spares_by};

use crate::carrying::{AreaOutput, EachReceipt};
use crate::choosing_each::{ChoiceEach, choose_each};
use crate::choosing_parents_each::choose_parents_each;
use crate::writing_each::write_each;
use osm_area::Area;
use osm_ways::{FirstPhase, SortedPhase};
use pbf_frame::{Drain, Feed};
use pbf_pass::{Halt, Passes};
use std::hash::BuildHasher;

/// The pass that writes: for each output the header, and what was chosen.
fn write_chosen<A: Drop, F: Feed, D: Drain + Drop, S: BuildHasher + Copy + Drop>(
    choice: ChoiceEach,
    outputs: Vec<AreaOutput<A, D>>,
    feed: &mut F,
    hasher: S,
) -> (Vec<AreaOutput<A, D>>, Result<EachReceipt, Halt>)
    requires same { length choice.choices.items ≡ length outputs.items }
    requires short { AllByRecursion (λ one. HasShortTexts (header_of one.header))
        choice.choices.items }
    ensures writes { WritesEach (fed F.Feed feed.old feed.new) D.Drain choice.next
        choice.choices.items outputs.items result.0.items (stop_result result.1) }
    ensures receipt { IfOk result.1 (λ receipt. (receipt.input ≡ choice.next.digest)
        × (receipt.spared ≡ choice.spared)) }
{
    let ChoiceEach {
        choices,
        next,
        spared,
    } = choice;
    let (outputs, outcome) = write_each(next, &choices, outputs, feed, hasher);
    match outcome {
        Ok(()) => {
            let input = next.digest;
            (outputs, Ok(EachReceipt { input, spared }))
        }
        Err(stop) => (outputs, Err(stop.into())),
    }
}

/// Writes the complete-ways extract of each of these areas into its drain, byte for byte what
/// [`extract_sorted_with_receipt`](crate::extract_sorted_with_receipt) would write for only this area. The outputs come back in the same order.
///
/// The file is judged once, and read once more to write all extracts. There is a pass between, over the second feed, if a node of the file comes
/// after a way. If the call halts, it halts for all areas. If all feeds supply the same bytes, each drain then has a prefix of its own extract.
///
/// Space: one frame; for each area the sets of its ids, and the block that is open; and for all areas together the strips of these ids, which are
/// up to 2^20 lists for nodes, for ways and for relations each, with at most one number for each id, and about 100,000 listed runs of a block.
pub fn extract_each<
    A: Area + Copy,
    F: Feed,
    G: Feed,
    H: Feed,
    D: Drain + Drop,
    S: BuildHasher + Copy + Drop,
>(
    passes: Passes,
    first: &mut F,
    second: &mut G,
    third: &mut H,
    outputs: Vec<AreaOutput<A, D>>,
    hasher: S,
) -> (Vec<AreaOutput<A, D>>, Result<EachReceipt, Halt>)
    // Of each area and its drain: what a call for only this area says; if a write failed, only of those whose drain failed. If it halts and
    // all feeds supply the same bytes, each drain has a prefix of its extract.
    ensures { ExtractsEach complete_ways A.area (fed F.Feed first.old first.new)
        (fed G.Feed second.old second.new ∷ []) (fed H.Feed third.old third.new ∷ []) D.Drain
        passes.check outputs.items result.0.items result.1 }
{
    let choice = match choose_each::<A, FirstPhase, F, G, D>(passes, &outputs, first, second) {
        Ok(choice) => choice,
        Err(halt) => return (outputs, Err(halt)),
    };
    write_chosen(choice, outputs, third, hasher)
}

/// The same with all parents, byte for byte what
/// [`extract_parents_sorted_with_receipt`](crate::extract_parents_sorted_with_receipt) would write for only this area.
///
/// There are two passes between, over the second feed and the third, unless no node comes after a way, and no node or way after a relation.
pub fn extract_parents_each<
    A: Area + Copy,
    F: Feed,
    G: Feed,
    H: Feed,
    I: Feed,
    D: Drain + Drop,
    S: BuildHasher + Copy + Drop,
>(
    passes: Passes,
    first: &mut F,
    second: &mut G,
    third: &mut H,
    fourth: &mut I,
    outputs: Vec<AreaOutput<A, D>>,
    hasher: S,
) -> (Vec<AreaOutput<A, D>>, Result<EachReceipt, Halt>)
    // Of each area and its drain: what a call for only this area says; if a write failed, only of those whose drain failed. If it halts and
    // all feeds supply the same bytes, each drain has a prefix of its extract.
    ensures { ExtractsEach all_parents A.area (fed F.Feed first.old first.new)
        (fed G.Feed second.old second.new ∷ fed H.Feed third.old third.new ∷ [])
        (fed I.Feed fourth.old fourth.new ∷ []) D.Drain
        passes.check outputs.items result.0.items result.1 }
{
    let choice = match choose_parents_each::<A, SortedPhase, F, G, H, D>(
        passes, &outputs, first, second, third,
    ) {
        Ok(choice) => choice,
        Err(halt) => return (outputs, Err(halt)),
    };
    write_chosen(choice, outputs, fourth, hasher)
}

/// The strategies by which several areas can be cut out of a file at once.
#[derive(Clone, Copy, Debug)]
pub enum EachStrategy {
    /// See [`extract_each`].
    CompleteWays,
    /// See [`extract_parents_each`].
    AllParents,
}

impl EachStrategy {
    /// How many feeds [`extract`](EachStrategy::extract) takes.
    pub fn pass_count(self) -> usize
        ensures { result ≡ spares_by (each_strategy self) + 2 }
    {
        match self {
            EachStrategy::CompleteWays => 3,
            EachStrategy::AllParents => 4,
        }
    }

    /// Writes the extract of each of these areas into its drain. The feeds have to supply the same file: each is read in one pass, in their
    /// order, but those between the first and the last are read only if the first pass was not enough. The outputs come back in the same order.
    pub fn extract<A: Area + Copy, F: Feed, D: Drain + Drop, S: BuildHasher + Copy + Drop>(
        self,
        passes: Passes,
        feeds: &mut [F],
        outputs: Vec<AreaOutput<A, D>>,
        hasher: S,
    ) -> (Vec<AreaOutput<A, D>>, Result<EachReceipt, Halt>)
        requires { length feeds.old ≡ spares_by (each_strategy self) + 2 }
        // Of each area and its drain: what a call for only this area says; if a write failed, only of those whose drain failed. If it halts
        // and all feeds supply the same bytes, each drain has a prefix of its extract.
        ensures { ExtractsAreas (each_strategy self) A.area (used F.Feed feeds.old feeds.new)
            D.Drain passes.check outputs.items result.0.items result.1 }
    {
        let (one, later) = feeds.split_at_mut(1);
        let (two, rest) = later.split_at_mut(1);
        let one = &mut one[0];
        let two = &mut two[0];
        match self {
            EachStrategy::CompleteWays => {
                extract_each(passes, one, two, &mut rest[0], outputs, hasher)
            }
            EachStrategy::AllParents => {
                let (three, four) = rest.split_at_mut(1);
                let three = &mut three[0];
                let four = &mut four[0];
                extract_parents_each(passes, one, two, three, four, outputs, hasher)
            }
        }
    }
}
