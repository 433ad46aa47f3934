//! Passes after the first one, whose bytes have to have its digest.

ghost use Rattle.std.specs.Prelude.{◌≡◌, false, IfErr, MatchResult, OnOk, Ok, Err};
ghost use Rattle.pbf_frame.specs.declared.stop.Stop.TheVariants.{Changed};
ghost use Rattle.pbf_pass.specs.Hashing.{mark_by};
ghost use Rattle.pbfcut.specs.Repeat.{as_change, digest_of, GathersLater};

use pbf_frame::{Feed, Stop};
use pbf_pass::{Gather, Passes, gather_unjudged};

/// A pass after the first.
#[derive(Clone, Copy)]
pub(crate) struct LaterPass {
    /// Which one.
    pub(crate) number: u8,
    /// The digest of the bytes of the first.
    pub(crate) digest: [u8; 32],
    /// How all of them are made.
    pub(crate) passes: Passes,
}

impl LaterPass {
    /// A fault of a frame that the judging pass didn't find is `Changed`.
    pub(crate) fn changed(self, stop: Stop) -> Stop
        ensures { result ≡ as_change self.number stop }
    {
        match stop {
            Stop::Refused(_) => Stop::Changed(self.number),
            other => other,
        }
    }

    /// Another digest is `Changed`.
    pub(crate) fn compare(self, digest: [u8; 32]) -> Result<(), Stop>
        ensures same { OnOk result (mark_by self.passes.check digest ≡ digest_of self) }
        ensures other { IfErr result (λ stop. (stop ≡ Changed self.number)
            × (digest ≡ self.digest → ⊥)) }
    {
        if digest == self.digest {
            Ok(())
        } else {
            Err(Stop::Changed(self.number))
        }
    }

    /// Gathers the entities of a whole file, whose payloads aren't judged again.
    pub(crate) fn gather<F: Feed, G: Gather>(
        self,
        feed: &mut F,
        gathering: &mut G,
    ) -> Result<(), Stop>
        ensures { GathersLater F.Feed G.gathered false self
            feed.old feed.new gathering.old gathering.new result }
    {
        match gather_unjudged(self.passes, feed, gathering, self.number) {
            Ok(digest) => self.compare(digest),
            Err(stop) => Err(self.changed(stop)),
        }
    }

    /// The same; or nothing, if all was gathered in the first pass.
    pub(crate) fn gather_rest<F: Feed, G: Gather>(
        self,
        feed: &mut F,
        gathering: &mut G,
        is_done: bool,
    ) -> Result<(), Stop>
        ensures { GathersLater F.Feed G.gathered is_done self
            feed.old feed.new gathering.old gathering.new result }
    {
        if is_done {
            return Ok(());
        }
        self.gather(feed, gathering)
    }

    /// What a pass that doesn't judge ends with, once its bytes are compared.
    pub(crate) fn conclude(self, outcome: Result<[u8; 32], Stop>) -> Result<(), Stop>
        ensures same { OnOk result (MatchResult outcome
            (λ digest. mark_by self.passes.check digest ≡ digest_of self) (λ _. ⊥)) }
        ensures other { IfErr result (λ stop. MatchResult outcome
            (λ digest. (stop ≡ Changed self.number) × (digest ≡ self.digest → ⊥))
            (λ first. stop ≡ as_change self.number first)) }
    {
        match outcome {
            Ok(input) => self.compare(input),
            Err(first) => Err(self.changed(first)),
        }
    }
}
