//! A raw file, given to another drain as the published one that means it.

ghost use Rattle.std.specs.Prelude.{◌≡◌, ◌⊎◌, ◌+◌, ◌<◌, ◌≤◌, ◌++◌, List, ℕ, Some, [], OnOk, OnErr, IfSome, IsSome};
ghost use Rattle.pbf_frame.specs.Keeps.{KeepsDrain};
ghost use Rattle.pbf_frame.specs.declared.header.TheConstants.{HEADER_LIMIT, LARGEST_SIZE};
ghost use Rattle.pbf_frame.specs.declared.put.TheConstants.{HEAD_ROOM};
ghost use Rattle.pbf_unpack.specs.declared.packer.TheConstants.{MOST_ROOM};
ghost use Rattle.pbf_unpack.specs.DrainStates.{spent_failures, stop_of_course, HasWhole};
ghost use Rattle.pbf_unpack.specs.RawFrames.{IsNoRaw};
ghost use Rattle.pbf_unpack.specs.declared.below.DrainState.TheVariants as states;

use crate::below::{Below, DrainState};
use crate::frame::RawFrame;
use crate::packer::FramePacker;
use deflate::Deflater;
use pbf_frame::{Drain, DrainFault, Stop};
use std::alloc::Global;

/// Takes the bytes of a raw file, however they are cut, and gives the drain below the published file that means it: each frame in written form
/// has its payload as zlib data, even if it gets longer by that, and all others stay as they are.
///
/// A frame goes to the drain below when the next one begins, and the last one by [`finish`](Self::finish). It holds one raw frame and one packed
/// one. A write fails if one of the drain below does, if memory is refused, or if the bytes before it are no raw file: no whole frame, or
/// one that has zlib data already. Then each later write fails too.
#[derive(Drop)]
pub struct PackedDrain<D: Drain> {
    pub(crate) below: Below<D>,
    pub(crate) frame: RawFrame,
    packer: FramePacker,
    ghost unfit: { below.state ≡ states.Unfit
        → IsNoRaw below.place (frame.front.items ++ frame.blob.items) },
}

impl<D: Drain> PackedDrain<D> {
    ghost use Rattle.pbf_unpack.specs.Packing.{taken_raw, failures_of_drain, frame_held, GaveAll, HasCause, HasCompressed, TookNoRawFile, IsEmptied, TookSame};

    /// Over a drain that took nothing. It does not allocate before the first frame.
    pub fn new(alloc: Global, deflater: Deflater, drain: D) -> Self
        requires { IfSome (D.taken drain) (λ taken. taken ≡ []) }
        ensures drain { result.below.drain ≡ drain }
        ensures lender { D.lender result.below.drain ≡ D.lender drain }
        ensures taken { taken_raw result ≡ D.taken drain }
        ensures logged { (log : ℕ) → D.has_taken drain log [] → HasCompressed result log [] }
        ensures failures { spent_failures result.below.state ≡ 0 }
    {
        PackedDrain {
            below: Below::new(drain),
            frame: RawFrame::new(alloc),
            packer: FramePacker::new(alloc, deflater),
        }
    }

    /// Takes nothing more.
    fn stop_as(&mut self, state: DrainState) -> DrainFault
        requires stops { (state ≡ states.Taking → ⊥) × (state ≡ states.Failed → ⊥) }
        requires unfit { state ≡ states.Unfit
            → IsNoRaw self.old.below.place (frame_held self.old.frame) }
        ensures state { self.new.below.state ≡ state }
        ensures drain { self.new.below.drain ≡ self.old.below.drain }
        ensures place { self.new.below.place ≡ self.old.below.place }
        ensures frame { self.new.frame ≡ self.old.frame }
    {
        self.below.state = state;
        DrainFault
    }

    /// Gives the drain below the frame that is held.
    fn send(&mut self) -> Result<(), DrainFault>
        requires taking { self.old.below.state ≡ states.Taking }
        requires complete { self.old.frame.wanted ≡ 0 }
        ensures taken { taken_raw self.new ≡ taken_raw self.old }
        ensures logged { OnOk result (TookSame self.old self.new) }
        ensures empty { OnOk result (IsEmptied self.new) }
        ensures stopped { OnErr result (self.new.below.state ≡ states.Taking → ⊥) }
        ensures keeps { KeepsDrain D.Drain self.old.below.drain self.new.below.drain }
    {
        let packing = match self.packer.pack(&self.frame, self.below.place) {
            Ok(Some(packing)) => packing,
            Ok(None) => return Err(self.stop_as(DrainState::Unfit)),
            Err(_) => return Err(self.stop_as(DrainState::Refused)),
        };
        let (front, blob) = self.packer.parts(&self.frame, packing);
        self.below.send(front, blob)?;
        self.frame.clear();
        Ok(())
    }

    /// Gives the drain below what is held of the file, which has to end here: then that drain took a file that means what this one took. It fails
    /// if the last frame isn't whole; then what was taken is no raw file.
    pub fn finish(&mut self) -> Result<(), DrainFault>
        ensures gave { OnOk result (GaveAll self.old self.new) }
        ensures taken { taken_raw self.new ≡ taken_raw self.old }
        ensures stopped { OnErr result (IsSome (stop_of_course self.new.below.state)
            ⊎ TookNoRawFile self.new) }
        ensures keeps { KeepsDrain D.Drain self.old.below.drain self.new.below.drain }
    {
        if self.below.state != DrainState::Taking {
            return Err(DrainFault);
        }
        if self.frame.is_empty() {
            return Ok(());
        }
        if !self.frame.is_complete() {
            return Err(DrainFault);
        }
        self.send()?;
        Ok(())
    }

    /// Why it takes nothing more: `Write` if a write of the drain below failed, or if the bytes are no raw file; `Memory` if memory was refused. If
    /// the drain below reports what it took, the refused bytes don't begin a raw file, unless the packed file is near its limit.
    pub fn stop(&self) -> Option<Stop>
        ensures stop { result ≡ stop_of_course self.now.below.state }
        ensures cause { HasCause self.now self.now.below.state }
    {
        match self.below.state {
            DrainState::Taking => None,
            DrainState::Failed | DrainState::Unfit => Some(Stop::Write),
            DrainState::Refused => Some(Stop::Memory),
        }
    }

    /// The bytes held, beside the tables of the [`Deflater`], half a megabyte: one raw frame and one packed one, at most 67,241,154.
    pub fn held(&self) -> u64
        ensures { result ≤ HEADER_LIMIT + LARGEST_SIZE + 3 + HEAD_ROOM + MOST_ROOM }
    {
        self.frame.held() + self.packer.held()
    }

    /// The drain below. If it reports its bytes, it took whole frames, and after them one was begun at most.
    pub fn into_inner(self) -> D
        ensures drain { result ≡ self.below.drain }
        ensures whole { (taken : List ℕ) → D.taken result ≡ Some taken
            → HasWhole self.below.state self.below.place taken }
        ensures lender { D.lender result ≡ D.lender self.below.drain }
    {
        self.below.drain
    }
}

impl<D: Drain> Drain for PackedDrain<D> {
    ghost use Rattle.pbf_unpack.specs.Packing.{taken_raw, failures_of_drain, HasCompressed};

    ghost taken = { λ p. taken_raw p };

    ghost has_taken = { λ p log raw. HasCompressed p log raw };

    ghost failures = { λ p. failures_of_drain p };

    ghost lender = { λ p. D.lender p.below.drain };

    fn write(&mut self, bytes: &[u8]) -> Result<usize, DrainFault> {
        if self.below.state != DrainState::Taking {
            return Err(DrainFault);
        }
        if self.frame.is_complete() {
            self.send()?;
        }
        match self.frame.take(bytes) {
            Ok(count) => Ok(count),
            Err(_) => Err(self.stop_as(DrainState::Refused)),
        }
    }
}
