//! The drain below a packing one, and how far the file is that it takes.

ghost use Rattle.std.specs.Prelude.{◌≡◌, ◌+◌, ◌<◌, ◌≤◌, ◌++◌, List, ℕ, Some, [], length, OnOk, OnErr, IfSome};
ghost use Rattle.pbf_frame.specs.Transfers.{Added};
ghost use Rattle.pbf_frame.specs.declared.frame.TheConstants.{FILE_LIMIT};
ghost use Rattle.pbf_unpack.specs.declared.below.DrainState.TheVariants as states;
ghost use Rattle.pbf_unpack.specs.DrainStates.{HasWhole, Stands};
ghost use Rattle.pbf_unpack.specs.RawFrames.{IsOneFrame};

use pbf_frame::{Drain, DrainFault, write_both};

/// How a drain goes on.
#[derive(Clone, Copy, PartialEq, Eq)]
pub(crate) enum DrainState {
    /// It takes bytes.
    Taking,
    /// It takes nothing more, since a write of the drain below failed.
    Failed,
    /// The same, since bytes came that are no raw file.
    Unfit,
    /// The same, since memory was refused.
    Refused,
}

/// A drain that takes whole frames.
#[derive(Drop)]
pub(crate) struct Below<D: Drain> {
    pub(crate) drain: D,
    /// How many bytes of whole frames it took.
    pub(crate) place: u64,
    pub(crate) state: DrainState,
    ghost in_range: { place ≤ FILE_LIMIT },
    ghost whole: { (taken : List ℕ) → D.taken drain ≡ Some taken → HasWhole state place taken },
    ghost failed: { state ≡ states.Failed → 0 < D.failures drain },
}

impl<D: Drain> Below<D> {
    ghost use Rattle.pbf_unpack.specs.Packing.{IsStuck};

    pub(crate) fn new(drain: D) -> Below<D>
        requires { IfSome (D.taken drain) (λ taken. taken ≡ []) }
        ensures drain { result.drain ≡ drain }
        ensures place { result.place ≡ 0 }
        ensures state { result.state ≡ states.Taking }
    {
        Below {
            drain,
            place: 0,
            state: DrainState::Taking,
        }
    }

    /// Gives the drain a whole frame, in two parts.
    pub(crate) fn send(&mut self, front: &[u8], blob: &[u8]) -> Result<(), DrainFault>
        requires taking { self.old.state ≡ states.Taking }
        requires means { (raw : List ℕ) × Stands self.old.place raw (front.now ++ blob.now)
            × IsOneFrame raw }
        ensures place { OnOk result
            (self.new.place ≡ self.old.place + length (front.now ++ blob.now)) }
        ensures state { OnOk result (self.new.state ≡ states.Taking) }
        ensures took { OnOk result
            (Added D.Drain self.old.drain (front.now ++ blob.now) self.new.drain) }
        ensures failed { OnErr result (IsStuck (front.now ++ blob.now) self.old self.new) }
        ensures counts { D.failures self.old.drain ≤ D.failures self.new.drain }
        ensures lender { D.lender self.new.drain ≡ D.lender self.old.drain }
    {
        let length = (front.len() + blob.len()) as u64;
        self.state = DrainState::Failed;
        write_both(&mut self.drain, front, blob)?;
        self.place += length;
        self.state = DrainState::Taking;
        Ok(())
    }
}
