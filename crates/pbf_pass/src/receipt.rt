//! What a call reports besides its work: the digests of the bytes that went through its devices.

ghost use Rattle.std.specs.Prelude.{◌≡◌};
ghost use Rattle.pbf_frame.specs.declared.stop.Stop.TheVariants as stop;
ghost use Rattle.pbf_pass.specs.declared.receipt.Halt.TheVariants as halt;
ghost use Rattle.pbf_pass.specs.Hashing.{raw_check};
ghost use Rattle.pbf_pass.specs.Refused.{stop_of, halted};

use crate::hashing::PassCheck;
use pbf_block::Counts;
use pbf_frame::Stop;
use pbf_wire::Fault;
use std::alloc::{AllocError, Global};

/// How the passes of a call are made.
#[derive(Clone, Copy)]
pub struct Passes {
    /// The allocator.
    pub alloc: Global,
    /// By what function the bytes are hashed that are read, and those of a later pass compared.
    pub check: PassCheck,
}

impl Passes {
    /// How those are made of what packed bytes mean: they are hashed only for their SHA-256 digest.
    pub fn of_raw(self) -> Passes
        ensures alloc { result.alloc ≡ self.alloc }
        ensures check { result.check ≡ raw_check self.check }
    {
        Passes {
            alloc: self.alloc,
            check: match self.check {
                PassCheck::Sha256 => PassCheck::Sha256,
                PassCheck::Keyed(_) | PassCheck::None => PassCheck::None,
            },
        }
    }
}

/// What a call that reads reports: how many entities, and the digest of its input by the check of its passes.
#[derive(Clone, Copy, Debug)]
pub struct InputReceipt {
    /// The numbers of the entities.
    pub counts: Counts,
    /// The digest of the bytes that the feed gave; if a call has several feeds, of those that each of them gave that was read. It says
    /// nothing if the check is [`PassCheck::None`].
    pub input: [u8; 32],
    /// Whether nothing was read of the second feed, since the first pass was enough: so it is in calls for sorted files.
    pub spared: bool,
}

/// The refusal of an input, with what was read of it.
#[derive(Clone, Copy, Debug)]
pub struct Refusal {
    /// The first fault of the input.
    pub fault: Fault,
    /// How many bytes the feed gave until then. The fault is the first of every file that begins with them; or the feed had ended,
    /// and it is the first of the file that has these bytes and no more.
    /// A count that would be higher stays at 2^64 - 1.
    pub read: u64,
    /// The digest of these bytes by the check of the passes.
    pub input: [u8; 32],
}

/// Why a call with a receipt stopped before its end.
#[derive(Clone, Copy, Debug)]
pub enum Halt {
    /// The input of the first feed is refused.
    Refused(Refusal),
    /// Another stop, never [`Stop::Refused`].
    Stopped(Stop),
}

impl Halt {
    /// The halt for a stop, after this many bytes of the first feed, of this digest: a refusal has both, another stop stays what it is.
    pub fn new(stop: Stop, read: u64, input: [u8; 32]) -> Halt
        ensures { result ≡ halted stop read input }
    {
        match stop {
            Stop::Refused(fault) => Halt::Refused(Refusal { fault, read, input }),
            other => Halt::Stopped(other),
        }
    }
}

impl From<Stop> for Halt {
    ghost from_gives = { λ stop e. e ≡ halt.Stopped stop };

    fn from(stop: Stop) -> Halt {
        Halt::Stopped(stop)
    }
}

impl From<AllocError> for Halt {
    ghost from_gives = { λ _ e. e ≡ halt.Stopped stop.Memory };

    fn from(_error: AllocError) -> Halt {
        Halt::Stopped(Stop::Memory)
    }
}

impl From<Halt> for Stop {
    ghost from_gives = { λ halt e. e ≡ stop_of halt };

    fn from(halt: Halt) -> Stop {
        match halt {
            Halt::Refused(refusal) => Stop::Refused(refusal.fault),
            Halt::Stopped(stop) => stop,
        }
    }
}
