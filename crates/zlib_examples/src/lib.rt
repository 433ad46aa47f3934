//! Zlib streams by example: a chapter a function, which does nothing. Its contract is the chapter's streams, each byte by byte, and what
//! they mean, proved by computing the definitions of the crate `zlib` on them.
#![tactic(auto)]

mod caller;

ghost use Rattle.zlib_examples.specs.Streams.{Stored, Fixed, Dynamic};
ghost use Rattle.zlib_examples.specs.Faults.{Faults};

pub use caller::{packed_and_unpacked, unpacked};

/// A stream of a stored block, of one with the fixed codes, and of one with codes of its own.
#[tactic(auto, unfolding(crate::proofs::Computing::zlib_on_literals))]
pub fn streams()
    ensures stored { Stored }
    ensures fixed { Fixed }
    ensures dynamic { Dynamic }
{}

/// Each fault once.
#[tactic(auto, unfolding(crate::proofs::Computing::zlib_on_literals))]
pub fn faults()
    ensures { Faults }
{}
