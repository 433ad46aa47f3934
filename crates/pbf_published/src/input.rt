//! A published file that is read: hashed as it is, and unpacked.

ghost use Rattle.std.specs.Prelude.{◌≡◌, Some, None, IfOk, IfErr, OnOk, false};
ghost use Rattle.pbf_frame.specs.declared.stop.Stop.TheVariants as stop;
ghost use Rattle.pbf_published.specs.Published.{Digested, HasDigest, IsOpened, ReportsOutcome, told_by};
ghost use Rattle.pbf_published.specs.PublishedTasks.{below_of};

use crate::traced::TracedFeed;
use pbf_block::Counts;
use pbf_frame::{Feed, Stop};
use pbf_pass::{Halt, PassCheck, PassFeed, Refusal};
use pbf_unpack::{DigestFeed, Inflater, Place, UnpackFault, UnpackedFeed};
use std::alloc::{AllocError, Global};

/// What a call reports: how many entities, and the digests of its input.
#[derive(Clone, Copy, Debug)]
pub struct PublishedInput {
    /// The numbers of the entities.
    pub counts: Counts,
    /// The digest of the packed bytes that each feed gave that was read, by the check of the passes.
    pub input: [u8; 32],
    /// The SHA-256 digest of the raw file that they mean, if SHA-256 is the check. Otherwise it says nothing.
    pub raw: [u8; 32],
}

/// Why a call over published files stopped before its end.
#[derive(Clone, Copy, Debug)]
pub struct PublishedHalt {
    /// The stop. The offset of a fault is one in the raw file that the first feed's bytes mean.
    pub stop: Stop,
    /// Where in the packed file the fault of a refusal is.
    pub place: Option<Place>,
    /// The first fault of zlib data in what was read of the first feed.
    pub fault: Option<UnpackFault>,
    /// What was read of that raw file until a refusal, if the call hashes it.
    pub refusal: Option<Refusal>,
}

impl From<Stop> for PublishedHalt {
    ghost from_gives = { λ stop e. e.stop ≡ stop };

    fn from(stop: Stop) -> PublishedHalt {
        PublishedHalt {
            stop,
            place: None,
            fault: None,
            refusal: None,
        }
    }
}

impl From<AllocError> for PublishedHalt {
    ghost from_gives = { λ _ e. e.stop ≡ stop.Memory };

    fn from(_error: AllocError) -> PublishedHalt {
        PublishedHalt::from(Stop::Memory)
    }
}

/// A published file, hashed as it is, and supplied as the raw file that it means.
pub type PublishedFeed<F> = UnpackedFeed<TracedFeed<PassFeed<F>>>;

impl<F: Feed> DigestFeed for TracedFeed<PassFeed<F>> {
    ghost digested = { λ old new digest. Digested old.feed new.feed digest };

    fn digest(&mut self) -> [u8; 32] {
        self.feed.digest()
    }
}

/// A published file from its start, which a call is to hash by this check. `Err` says that memory was refused.
pub fn open<F: Feed + Drop>(
    alloc: Global,
    feed: F,
    check: PassCheck,
) -> Result<PublishedFeed<F>, AllocError>
    ensures opened { IfOk result (λ now. IsOpened F.Feed ⟦<PublishedFeed<F> as Feed>⟧ check feed now) }
    ensures below { IfOk result (λ now. below_of now ≡ feed) }
    ensures lender { IfOk result (λ now. ⟦<PublishedFeed<F> as Feed>⟧.lender now ≡ F.lender feed) }
{
    let inflater = Inflater::new(alloc)?;
    let traced = TracedFeed {
        feed: PassFeed::new(feed, check),
    };
    Ok(UnpackedFeed::new(alloc, inflater, traced))
}

/// The digest of the packed bytes that were read, if all that they mean was supplied. Another digest is begun.
pub(crate) fn packed_digest<F: Feed>(feed: &mut PublishedFeed<F>) -> Option<[u8; 32]>
    ensures digest { HasDigest F.Feed ⟦<PublishedFeed<F> as Feed>⟧ (below_of feed.old) feed.old result }
    ensures below { below_of feed.new ≡ below_of feed.old }
{
    if feed.has_given_all() {
        Some(feed.digest())
    } else {
        None
    }
}

/// The feed below, which comes back whatever was read.
pub fn close<F: Feed>(feed: PublishedFeed<F>) -> F
    ensures below { result ≡ below_of feed }
    ensures lender { F.lender result ≡ ⟦<PublishedFeed<F> as Feed>⟧.lender feed }
{
    feed.into_feed().feed.into_inner()
}

/// The digest of the feed of the first pass, which has one after a call that succeeded.
pub(crate) fn first_digest(first: Option<[u8; 32]>) -> Result<[u8; 32], Stop>
    ensures there { IfOk result (λ digest. first ≡ Some digest) }
    ensures stops { IfErr result (λ s. (s ≡ stop.Changed 1) × (first ≡ None)) }
{
    first.ok_or(Stop::Changed(1))
}

/// A later pass with another digest is `Changed`.
pub(crate) fn compare(digest: [u8; 32], later: Option<[u8; 32]>, pass: u8) -> Result<(), Stop>
    ensures same { OnOk result (later ≡ Some digest) }
    ensures stops { IfErr result (λ s. (s ≡ stop.Changed pass) × (later ≡ Some digest → ⊥)) }
{
    if later == Some(digest) {
        Ok(())
    } else {
        Err(Stop::Changed(pass))
    }
}

/// What a stop of a call over raw files says of published ones: of the first of them, and of a feed that was refused memory.
pub(crate) fn stopped<F: Feed>(
    stop: Stop,
    first: &PublishedFeed<F>,
    lacks_memory: bool,
) -> PublishedHalt
    ensures { result.stop ≡ told_by lacks_memory stop }
{
    let place = match stop {
        Stop::Refused(fault) => Some(first.place_of(fault.offset)),
        _ => None,
    };
    PublishedHalt {
        stop: match stop {
            Stop::Read if lacks_memory => Stop::Memory,
            other => other,
        },
        place,
        fault: first.fault(),
        refusal: None,
    }
}

/// What a call over raw files returns, as it is reported of the published ones: of the first of them, and of a feed that was refused
/// memory.
pub(crate) fn published_outcome<R, F: Feed>(
    outcome: Result<R, Halt>,
    first: &PublishedFeed<F>,
    lacks_memory: bool,
) -> Result<R, PublishedHalt>
    ensures { ReportsOutcome lacks_memory outcome result }
{
    match outcome {
        Ok(receipt) => Ok(receipt),
        Err(Halt::Refused(refusal)) => Err(PublishedHalt {
            refusal: Some(refusal),
            ..stopped(Stop::Refused(refusal.fault), first, lacks_memory)
        }),
        Err(Halt::Stopped(stop)) => Err(stopped(stop, first, lacks_memory)),
    }
}

/// Whether a feed was refused memory. If it wasn't, the reads of it that failed are those of the feed below.
pub(crate) fn lacks_memory<F: Feed>(feed: &PublishedFeed<F>) -> bool
    ensures { result ≡ false → ⟦<PublishedFeed<F> as Feed>⟧.failures feed.now
        ≡ F.failures (below_of feed.now) }
{
    feed.stop() == Some(Stop::Memory)
}
