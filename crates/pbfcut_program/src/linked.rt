//! A drain between a call and one that hashes.

ghost use Rattle.std.specs.Prelude.{◌≡◌};
ghost use Rattle.pbfcut_program.specs.Devices.{HasLinked};

use pbf_frame::{Drain, DrainFault};

/// The drain below, with its first two logs as one: by that both took the same bytes. So the digest of what a hashing drain took is that
/// of what the drain below it took. It does nothing else.
#[derive(Drop)]
pub(crate) struct LinkedDrain<D> {
    drain: D,
}

impl<D: Drain> Drain for LinkedDrain<D> {
    ghost taken = { λ l. D.taken l.drain };

    ghost has_taken = { λ l log b. HasLinked D.Drain l.drain log b };

    ghost failures = { λ l. D.failures l.drain };

    ghost lender = { λ l. D.lender l.drain };

    fn write(&mut self, bytes: &[u8]) -> Result<usize, DrainFault> {
        self.drain.write(bytes)
    }
}

impl<D: Drain> LinkedDrain<D> {
    pub(crate) fn new(drain: D) -> LinkedDrain<D>
        ensures { result.drain ≡ drain }
    {
        LinkedDrain { drain }
    }

    /// The drain below.
    pub(crate) fn into_inner(self) -> D
        ensures { result ≡ self.drain }
    {
        self.drain
    }
}
