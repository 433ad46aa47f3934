//! What supplies bytes, and what takes them.

ghost use Rattle.std.specs.Prelude.{◌≡◌, ◌<◌, ◌≤◌, ℕ, List, [], ◌∷◌, length, take, Option, IfOk, OnErr};
ghost use Rattle.pbf_frame.specs.Devices.{prepend, append, Passes, IsAtEnd, HasRisen};
ghost use Rattle.std.specs.Borrow.{GName};

use crate::stop::{DrainFault, FeedFault};

/// A device that supplies bytes.
pub trait Feed {
    /// The bytes still to supply, if the device reports them.
    ghost remaining: { Self → Option (List ℕ) };

    /// How often a read has failed, which stays at the greatest `u64`.
    ghost failures: { Self → ℕ };

    /// The references that it goes through, from the outermost on.
    ghost lender: { Self → List GName } = { λ _. [] };

    /// The bytes that have passed, by each log that it keeps of them, from the outermost on; a read adds what it gave.
    ghost has_passed: { Self → ℕ → List ℕ → Type 0 } = { λ _ _ _. Unit {0} };

    /// Reads some of the next bytes that the feed supplies, none only at its end. A failure raises the count, and
    /// then the bytes still to supply are unspecified.
    fn read(&mut self, buf: &mut [u8]) -> Result<usize, FeedFault>
        ensures bound { IfOk result (λ n. n ≤ length buf.old) }
        ensures bytes { IfOk result (λ n. remaining self.old
            ≡ prepend (take n buf.new) (remaining self.new)) }
        ensures end { IfOk result (λ n. n ≡ 0 → 0 < length buf.old → IsAtEnd (remaining self.old)) }
        ensures passed { IfOk result (λ n.
            Passes (has_passed self.old) (take n buf.new) (has_passed self.new)) }
        ensures counts { failures self.old ≤ failures self.new }
        ensures failed { OnErr result (HasRisen (failures self.old) (failures self.new)) }
        ensures lender { lender self.new ≡ lender self.old };
}

impl<F: Feed> Feed for &mut F {
    ghost remaining = { λ r. F.remaining r.now };

    ghost failures = { λ r. F.failures r.now };

    ghost lender = { λ r. r.ghost_name ∷ F.lender r.now };

    ghost has_passed = { λ r log b. F.has_passed r.now log b };

    fn read(&mut self, buf: &mut [u8]) -> Result<usize, FeedFault> {
        Feed::read(&mut **self, buf)
    }
}

/// A device that takes bytes.
pub trait Drain {
    /// The bytes taken, if the device reports them.
    ghost taken: { Self → Option (List ℕ) };

    /// The bytes that it took, by each log that it keeps of them, from the outermost on; a write adds what it took.
    ghost has_taken: { Self → ℕ → List ℕ → Type 0 } = { λ _ _ _. Unit {0} };

    /// How often a write has failed, which stays at the greatest `u64`.
    ghost failures: { Self → ℕ };

    /// The references that it goes through, from the outermost on.
    ghost lender: { Self → List GName } = { λ _. [] };

    /// Takes a prefix of the bytes, at least one of them if there are any, or fails, takes none, and raises the count.
    fn write(&mut self, bytes: &[u8]) -> Result<usize, DrainFault>
        ensures bound { IfOk result (λ n. n ≤ length bytes.now) }
        ensures some { IfOk result (λ n. 0 < length bytes.now → 0 < n) }
        ensures bytes { IfOk result (λ n. taken self.new
            ≡ append (taken self.old) (take n bytes.now)) }
        ensures logged { IfOk result (λ n.
            Passes (has_taken self.old) (take n bytes.now) (has_taken self.new)) }
        ensures none { OnErr result (taken self.new ≡ taken self.old) }
        ensures counts { failures self.old ≤ failures self.new }
        ensures failed { OnErr result (HasRisen (failures self.old) (failures self.new)) }
        ensures lender { lender self.new ≡ lender self.old };
}

impl<D: Drain> Drain for &mut D {
    ghost taken = { λ r. D.taken r.now };

    ghost has_taken = { λ r log b. D.has_taken r.now log b };

    ghost failures = { λ r. D.failures r.now };

    ghost lender = { λ r. r.ghost_name ∷ D.lender r.now };

    fn write(&mut self, bytes: &[u8]) -> Result<usize, DrainFault> {
        Drain::write(&mut **self, bytes)
    }
}
