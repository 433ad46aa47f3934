//! Several extracts of a published file, in one call: a feed for each pass.

ghost use Rattle.std.specs.Prelude.{◌≡◌, ◌+◌, length, map};
ghost use Rattle.pbfcut.specs.Calls.{used};
ghost use Rattle.pbfcut.specs.EachReceipts.{each_strategy};
ghost use Rattle.pbfcut.specs.Tasks.{spares_by};
ghost use Rattle.pbf_published.specs.PublishedEach.{DoesPublishedEach};
ghost use Rattle.pbf_published.specs.PublishedTasks.{AreOpened, below_of};

use crate::input::{PublishedFeed, PublishedHalt, published_outcome};
use crate::running::{lacks_any, shared_digest, skipped_of};
use osm_area::Area;
use pbf_frame::{Drain, Feed};
use pbf_pass::Passes;
use pbfcut::{AreaOutput, EachStrategy};
use std::hash::BuildHasher;

/// What a call reports that writes several extracts: the numbers of the entities are in the outputs.
#[derive(Clone, Copy, Debug)]
pub struct PublishedDigests {
    /// The digest of the packed bytes that each feed gave that was read, by the check of the passes.
    pub input: [u8; 32],
    /// The SHA-256 digest of the raw file that they mean, if SHA-256 is the check. Otherwise it says nothing.
    pub raw: [u8; 32],
}

/// Writes the extract of each of these areas into its drain, as [`EachStrategy::extract`] does it over raw files: one feed for each pass, just
/// opened. The outputs come back in the same order.
///
/// All feeds that are read have to supply the same bytes. `Changed` says which did not; what the drains took by then is unspecified. If the call
/// halts, it halts for all areas.
///
/// Space: that of the extracts, and for each feed one packed frame and a raw one.
pub fn run_published_each<A: Area + Copy, F: Feed, D: Drain + Drop, S: BuildHasher + Copy + Drop>(
    passes: Passes,
    strategy: EachStrategy,
    feeds: &mut [PublishedFeed<F>],
    outputs: Vec<AreaOutput<A, D>>,
    hasher: S,
) -> (
    Vec<AreaOutput<A, D>>,
    Result<PublishedDigests, PublishedHalt>,
)
    requires count { length feeds.old ≡ spares_by (each_strategy strategy) + 2 }
    requires opened { AreOpened F.Feed ⟦<PublishedFeed<F> as Feed>⟧ below_of passes.check feeds.old }
    // Each area and its drain: what `run_published` says for only this area. If the call halts, each drain has a prefix of its extract, whichever
    // failed, unless a feed has other bytes than the first.
    ensures { DoesPublishedEach (each_strategy strategy) A.area
        (used F.Feed (map below_of feeds.old) (map below_of feeds.new))
        D.Drain passes.check outputs.items result.0.items result.1 }
{
    let (outputs, outcome) = strategy.extract(passes.of_raw(), feeds, outputs, hasher);
    let is_memory = lacks_any(feeds);
    let receipt = match published_outcome(outcome, &feeds[0], is_memory) {
        Ok(receipt) => receipt,
        Err(halt) => return (outputs, Err(halt)),
    };
    let skipped = skipped_of(receipt.spared, feeds.len());
    match shared_digest(feeds, skipped) {
        Ok(input) => {
            let raw = receipt.input;
            (outputs, Ok(PublishedDigests { input, raw }))
        }
        Err(stop) => (outputs, Err(stop.into())),
    }
}
