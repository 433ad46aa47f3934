//! Every task over published files, in one call: a feed for each pass.

ghost use Rattle.std.specs.Prelude.{◌≡◌, ◌+◌, ◌-◌, ◌<◌, length, map, false, IfOk, IfErr, OnOk};
ghost use Rattle.pbfcut.specs.Calls.{drained, used};
ghost use Rattle.pbfcut.specs.Tasks.{passes_of};
ghost use Rattle.pbf_published.specs.PublishedTasks.{AreOpened, DigestsDiffer, DoesPublished, FailBelow, HaveDigest, OtherDigest, ShareDigest, below_of, skipped_of};

use crate::input::{
    PublishedFeed, PublishedHalt, PublishedInput, compare, first_digest, lacks_memory, open,
    packed_digest, published_outcome,
};
use pbf_frame::{Drain, Feed, Stop};
use pbf_pass::{PassCheck, Passes};
use pbfcut::FileTask;
use std::alloc::{AllocError, Global};
use std::hash::BuildHasher;

/// Opens each of these files, which a call is to hash by this check. `Err` says that memory was refused.
#[tactic(auto, using(crate::proofs::TaskLemmas::opened_more))]
pub fn open_all<F: Feed + Drop>(
    alloc: Global,
    feeds: Vec<F>,
    check: PassCheck,
) -> Result<Vec<PublishedFeed<F>>, AllocError>
    ensures opened { IfOk result (λ opened. AreOpened F.Feed ⟦<PublishedFeed<F> as Feed>⟧ below_of
        check opened.items) }
    ensures below { IfOk result (λ opened. map below_of opened.items ≡ feeds.items) }
{
    let mut opened = Vec::with_capacity(alloc, feeds.len())?;
    'feeds: for feed in feeds {
        opened.push(open(alloc, feed, check)?)?;
    }
    Ok(opened)
}

/// Whether one of the feeds was refused memory. If none was, the reads that failed are those of the feeds below.
pub(crate) fn lacks_any<F: Feed>(feeds: &[PublishedFeed<F>]) -> bool
    ensures { result ≡ false
        → FailBelow F.Feed ⟦<PublishedFeed<F> as Feed>⟧ below_of feeds.now }
{
    let [first, later @ ..] = feeds else {
        return false;
    };
    lacks_memory(first) || lacks_any(later)
}

/// How many feeds after the first aren't compared with it: if passes were spared, all but the last.
pub(crate) fn skipped_of(spared: bool, feeds: usize) -> usize
    ensures { result ≡ skipped_of spared (feeds - 2) }
{
    if spared { feeds.saturating_sub(2) } else { 0 }
}

/// Compares the digests of later feeds with the first feed's, except for the first `skipped`. `number` is the pass of the first of them.
fn compare_later<F: Feed>(
    feeds: &mut [PublishedFeed<F>],
    digest: [u8; 32],
    skipped: usize,
    number: u8,
) -> Result<(), Stop>
    requires { number + length feeds.old < 256 }
    ensures below { map below_of feeds.new ≡ map below_of feeds.old }
    ensures same { OnOk result (HaveDigest F.Feed ⟦<PublishedFeed<F> as Feed>⟧ below_of
        skipped digest feeds.old) }
    ensures stops { IfErr result (OtherDigest F.Feed ⟦<PublishedFeed<F> as Feed>⟧ below_of
        skipped digest number feeds.old) }
{
    let Some((first, later)) = feeds.split_first_mut() else {
        return Ok(());
    };
    if skipped > 0 {
        return compare_later(later, digest, skipped - 1, number + 1);
    }
    compare(digest, packed_digest(first), number)?;
    compare_later(later, digest, 0, number + 1)
}

/// The digest of the first feed. The later ones have it too, except the first `skipped`.
pub(crate) fn shared_digest<F: Feed>(
    feeds: &mut [PublishedFeed<F>],
    skipped: usize,
) -> Result<[u8; 32], Stop>
    requires { 1 + length feeds.old < 256 }
    ensures below { map below_of feeds.new ≡ map below_of feeds.old }
    ensures same { IfOk result (λ digest. ShareDigest F.Feed ⟦<PublishedFeed<F> as Feed>⟧ below_of
        skipped digest feeds.old) }
    ensures stops { IfErr result (DigestsDiffer F.Feed ⟦<PublishedFeed<F> as Feed>⟧ below_of
        skipped feeds.old) }
{
    let Some((first, later)) = feeds.split_first_mut() else {
        return Err(Stop::Changed(1));
    };
    let digest = first_digest(packed_digest(first))?;
    compare_later(later, digest, skipped, 2)?;
    Ok(digest)
}

/// Does a task over the raw files that published ones mean, as the engine does it over raw files: one feed for each pass, just opened.
///
/// All feeds that are read have to supply the same bytes. `Changed` says which did not; what the last pass wrote before is unspecified
/// then. A refusal has the place of the fault in the published file, and nothing is written then.
///
/// Space: that of the task, and for each feed one packed frame and a raw one.
pub fn run_published<T: FileTask, F: Feed, D: Drain, S: BuildHasher + Drop>(
    passes: Passes,
    task: T,
    feeds: &mut [PublishedFeed<F>],
    drain: &mut D,
    hasher: S,
) -> Result<PublishedInput, PublishedHalt>
    requires count { length feeds.old ≡ passes_of (T.task task) }
    requires opened { AreOpened F.Feed ⟦<PublishedFeed<F> as Feed>⟧ below_of passes.check feeds.old }
    // Each feed gave packed bytes of the digest `input`, which mean a raw file, of the SHA-256 digest `raw` if that is the check; or passes
    // were spared. What the task means holds of the raw files, the counts and what the drain took: of an extract, if the raw files are the
    // same, that it is exactly the extract. What is refused is the raw file that the first feed's bytes mean, by its first fault, and then
    // the drain took nothing. `Read` and `Write` come only if a count of failures rose: of a feed, of the drain. `Changed` has the number of
    // the pass whose feed has other packed bytes than the first, as far as both report them. After any other stop a prefix of what is to be
    // written went out, if all feeds mean one raw file.
    ensures { DoesPublished (T.task task)
        (used F.Feed (map below_of feeds.old) (map below_of feeds.new))
        (drained D.Drain drain.old drain.new) passes.check result }
{
    let outcome = task.run(passes.of_raw(), feeds, drain, hasher);
    let is_memory = lacks_any(feeds);
    let receipt = published_outcome(outcome, &feeds[0], is_memory)?;
    let raw = receipt.input;
    let skipped = skipped_of(receipt.spared, feeds.len());
    let input = shared_digest(feeds, skipped)?;
    Ok(PublishedInput {
        counts: receipt.counts,
        input,
        raw,
    })
}
