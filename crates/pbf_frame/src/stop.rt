//! Why work stops.

ghost use Rattle.std.specs.Prelude.{◌≡◌};
ghost use Rattle.pbf_frame.specs.declared.stop.Stop.TheVariants as stop;
ghost use Rattle.pbf_frame.specs.Stops.{stop_of_fault};

use pbf_wire::{Fault, ReadFault};
use std::alloc::{AllocError, AllocFailed};
use thiserror::Error;

/// A read failed.
#[derive(Clone, Copy, Debug, PartialEq, Eq, Error)]
#[error("read failed")]
pub struct FeedFault;

/// A write failed.
#[derive(Clone, Copy, Debug, PartialEq, Eq, Error)]
#[error("write failed")]
pub struct DrainFault;

/// Why work stopped before its end. What returned it is spent: it returns the same again, and touches no device.
#[derive(Clone, Copy, Debug, PartialEq, Eq, Error)]
pub enum Stop {
    /// The input is refused.
    #[error("{0}")]
    Refused(Fault),
    /// A read failed.
    #[error("read failed")]
    Read,
    /// A write failed.
    #[error("write failed")]
    Write,
    /// A request for memory was refused.
    #[error("out of memory")]
    Memory,
    /// The pass of this number read other input than the first.
    #[error("input changed in pass {0}")]
    Changed(u8),
}

impl From<Fault> for Stop {
    ghost from_gives = { λ fault e. e ≡ stop.Refused fault };

    fn from(fault: Fault) -> Stop {
        Stop::Refused(fault)
    }
}

impl From<ReadFault> for Stop {
    ghost from_gives = { λ fault e. e ≡ stop_of_fault fault };

    fn from(fault: ReadFault) -> Stop {
        match fault {
            ReadFault::Refused(fault) => Stop::Refused(fault),
            ReadFault::Memory => Stop::Memory,
        }
    }
}

impl From<FeedFault> for Stop {
    ghost from_gives = { λ _ e. e ≡ stop.Read };

    fn from(_fault: FeedFault) -> Stop {
        Stop::Read
    }
}

impl From<DrainFault> for Stop {
    ghost from_gives = { λ _ e. e ≡ stop.Write };

    fn from(_fault: DrainFault) -> Stop {
        Stop::Write
    }
}

impl From<AllocError> for Stop {
    ghost from_gives = { λ _ e. e ≡ stop.Memory };

    fn from(_error: AllocError) -> Stop {
        Stop::Memory
    }
}

impl<T: Drop> From<AllocFailed<T>> for Stop {
    ghost from_gives = { λ _ e. e ≡ stop.Memory };

    fn from(_error: AllocFailed<T>) -> Stop {
        Stop::Memory
    }
}
